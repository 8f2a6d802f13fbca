// What a message asks for, and its doing.
ghost use Rattle.std.specs.Prelude.{◌≡◌, false, cond, not, ◌||◌, ◌+◌, List, ℕ, length, take, IfOk};
ghost use Rattle.tags.specs.Kept.{octets_put};
ghost use Rattle.tags.specs.Choice.{refuse};
ghost use Rattle.receiver.specs.Message.{type_of, data_of, sequel_type};
ghost use Rattle.receiver.specs.Modes.{void_mode};
ghost use Rattle.receiver.specs.Governing.{Configuration};
ghost use Rattle.receiver.specs.Slices.{slices};
ghost use Rattle.receiver.specs.Chunk.{chunk, is_fragment};
ghost use Rattle.receiver.specs.Meters.{over_limit};
ghost use Rattle.receiver.specs.Gathering.{place_in, end_in};
ghost use Rattle.receiver.specs.Checks.{header_number, route_number, governs, holder_number, type_fits, own_number};
ghost use Rattle.receiver.specs.Record.{channels_of, standing_of, gathered_in, gathering_in};
ghost use Rattle.receiver.specs.Contract.{sums_in};
ghost use Rattle.receiver.specs.Steps.{whole_in, Concluded};
ghost use Rattle.receiver.specs.Refusal.{number_in};
ghost use Rattle.receiver.specs.Kinds.{mode_number, type_number};
ghost use Rattle.receiver.specs.Views.{ReadAs, meaning, done_of};
ghost use Rattle.receiver.specs.Works.{WorkOf, HasRoom};
ghost use Rattle.receiver.specs.declared.Receiver.{Receiver};

use super::Readings;
use super::chunk::{Chunk, ChunkType};
use super::draw::{Counts, draw_points, write_levels};
use super::gather::Gathered;
use super::governing::Governing;
use super::incoming::Message;
use super::modes::Mode;
use super::record::{RECORD, held_elsewhere};
use super::refusal::Refusal;
use tags::levels::copy;

// What the chunk of a message asks for, by its type and the mode that governs it: its points drawn, its levels written, its octets gathered as a
// fragment of a frame, or nothing. An enum and no closure: judge hands it out, and a function that is handed out may not be one that was made.
#[derive(Clone, Copy, Debug, PartialEq, Eq)]
pub enum Work {
    Nothing,
    Draw,
    Dim,
    Gather,
}

impl Work {
    // Check 17, which mode 0 and a sequel pass by.
    fn of(chunk_type: ChunkType, mode: Mode) -> Result<Work, Refusal>
        ensures number { (v : Configuration) (octets : List ℕ) → v.mode ≡ mode_number mode
            → number_in result ≡ refuse (not (void_mode v.mode || sequel_type (type_number chunk_type) || type_fits (chunk (type_number chunk_type) octets) v)) 17 }
        ensures work { (v : Configuration) → v.mode ≡ mode_number mode → IfOk result (λ work. WorkOf work (type_number chunk_type) v) }
    {
        match (chunk_type, mode) {
            (ChunkType::Wave, Mode::Wave) | (ChunkType::Frame, Mode::Frame) => Ok(Work::Draw),
            (ChunkType::Levels, Mode::Effects | Mode::Universe) => Ok(Work::Dim),
            (ChunkType::First | ChunkType::Sequel, Mode::Frame) => Ok(Work::Gather),
            (ChunkType::Void | ChunkType::Sequel, _) | (_, Mode::Void) => Ok(Work::Nothing),
            _ => Err(Refusal::Mismatch),
        }
    }
}

// Check 15, of a message governed by the mode: only mode 1 is one that a single channel may have.
#[tactic(auto, using(crate::proofs::WorkLaws::holders))]
fn check_holder(message: &Message, mode: Mode, channels: &[u8; RECORD]) -> Result<(), Refusal>
    ensures { (m : List ℕ) (r : Receiver) → ReadAs m message.now → r.channels ≡ channels.now → (governs m (channels_of r)).mode ≡ mode_number mode
        → number_in result ≡ holder_number m (channels_of r) }
{
    let (Some(_), Mode::Wave) = (message.routing, mode) else {
        return Ok(());
    };
    if held_elsewhere(channels, mode, message.channel) {
        return Err(Refusal::Held);
    }
    Ok(())
}

// The checks on a message itself by what governs it, 16, 24, 25, 17 to 19, 15 and 26: what it then asks for. Mode 0 passes all behind 16 by.
pub(crate) fn judge(
    message: &Message,
    governing: &Governing,
    channels: &[u8; RECORD],
    gathered: Gathered,
    assembly: usize,
) -> Result<Work, Refusal>
    ensures number { (m a : List ℕ) (r : Receiver) → ReadAs m message.now → header_number m ≡ 0 → route_number m ≡ 0
        → r.channels ≡ channels.now → gathered_in r.gathered ≡ gathered → meaning governing.now ≡ governs m (channels_of r)
        → number_in result ≡ own_number m assembly (standing_of r a) }
    ensures work { IfOk result (λ work. WorkOf work (type_number message.now.chunk.chunk_type) (meaning governing.now)) }
    ensures room { IfOk result (λ work. HasRoom work message.now gathered assembly) }
{
    let Some(mode) = governing.mode else {
        return Err(Refusal::Closed);
    };
    if mode == Mode::Void {
        return Ok(Work::Nothing);
    }
    gathered.check_sequel(message)?;
    let work = Work::of(message.chunk.chunk_type, mode)?;
    message.chunk.check_data()?;
    message.chunk.check_match_bits(governing.match_bits)?;
    check_holder(message, mode, channels)?;
    gathered.check_room(work, message, assembly)?;
    Ok(work)
}

// The work of a message that passed the checks on itself: a wave or frame is drawn, levels are written, and the octets of a fragment are put behind
// those before it, where the last completes the frame that is drawn. Checks 20 to 23 are tried on what is drawn or written.
pub(crate) fn carry_out(
    work: Work,
    message: &Message,
    governing: &Governing,
    gathered: Gathered,
    meters: Readings,
    rows: &mut [i32],
    levels: &mut [u8],
    assembly: &mut [u8],
) -> Result<Counts, Refusal>
    requires work { WorkOf work (type_number message.now.chunk.chunk_type) (meaning governing.now) }
    requires room { HasRoom work message.now gathered (length assembly.old) }
    requires within { over_limit (sums_in meters) ≡ false }
    ensures taken { (m : List ℕ) → ReadAs m message.now
        → assembly.new ≡ cond (is_fragment (type_of m) (meaning governing.now)) (octets_put assembly.old (place_in m (gathering_in gathered assembly.old)) (data_of m)) assembly.old }
    ensures concluded { (m a : List ℕ) → ReadAs m message.now
        → Concluded 0 (whole_in m (meaning governing.now) (take (end_in m (gathering_in gathered assembly.old)) assembly.new)) (meaning governing.now) (sums_in meters) (slices rows.old levels.old a) (done_of result) (slices rows.new levels.new a) }
{
    match work {
        Work::Nothing => Ok(Counts::NONE),
        Work::Draw => draw_points(governing, &message.chunk, meters, rows),
        Work::Dim => write_levels(governing, &message.chunk, levels),
        Work::Gather => {
            let section = message.chunk.section;
            let place = gathered.place(message.chunk.chunk_type);
            let end = place + section.len();
            copy(section, assembly, place);
            if !message.last {
                return Ok(Counts::NONE);
            }
            let frame = Chunk {
                chunk_type: ChunkType::Frame,
                section: &assembly[..end],
            };
            draw_points(governing, &frame, meters, rows)
        }
    }
}
