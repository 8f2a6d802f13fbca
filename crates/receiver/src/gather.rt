// A frame that comes in fragments (C-12): what the record holds of it, checks 24 to 26, and what is gathered after a message. At most one frame
// is gathered at a time.
ghost use Rattle.std.specs.Prelude.{◌≡◌, true, false, cond, ◌&&◌, ◌||◌, eqb, is_some, List, [], ℕ, ◌+◌, ◌<◌, ◌≤◌};
ghost use Rattle.receiver.specs.Message.{sequel_type};
ghost use Rattle.receiver.specs.Modes.{void_mode};
ghost use Rattle.receiver.specs.Governing.{Configuration};
ghost use Rattle.receiver.specs.Chunk.{is_fragment};
ghost use Rattle.receiver.specs.Gathering.{gathers_on, next_timestamp};
ghost use Rattle.receiver.specs.Checks.{most_octets, sequel_number, room_number};
ghost use Rattle.receiver.specs.Effects.{of_whole};
ghost use Rattle.receiver.specs.Record.{gathering_in};
ghost use Rattle.receiver.specs.Steps.{grown_in, gathered_after};
ghost use Rattle.receiver.specs.Refusal.{number_in};
ghost use Rattle.receiver.specs.Kinds.{type_number};
ghost use Rattle.receiver.specs.Views.{ReadAs, meaning};
ghost use Rattle.receiver.specs.Works.{WorkOf, HasRoom, end_behind};

use super::ChannelId;
use super::chunk::ChunkType;
use super::draw::Counts;
use super::governing::Governing;
use super::incoming::Message;
use super::modes::Mode;
use super::record::GATHERED;
use super::refusal::Refusal;
use super::work::Work;

// The most octets of a frame.
const MOST: usize = 1_000_000_000;

// What the record holds of the frame: state 0 is no frame, and a channel plus 1 is one on that channel; how many of its octets stand at the
// start of the assembly slice; the timestamp of its first fragment; and the number of the next sequel, as far as 32 bits tell it. No
// Option: a C host keeps four numbers, and those of a record without a frame are handed back as they came.
#[derive(Clone, Copy)]
pub struct Gathered {
    pub state: u32,
    pub count: u32,
    pub timestamp: u32,
    pub sequel: u32,
}

impl Gathered {
    // A frame is gathered on the channel.
    fn is_on(self, channel: ChannelId) -> bool
        ensures { result ≡ gathers_on (gathering_in self []) channel.0 }
    {
        self.state == u32::from(channel.0) + 1
    }

    // The timestamp of its next sequel.
    fn next_timestamp(self) -> u32
        ensures { result ≡ next_timestamp (gathering_in self []) }
    {
        self.timestamp.wrapping_add(self.sequel)
    }

    // Where the octets of a fragment come to stand in the assembly slice: a sequel goes on, a first fragment begins.
    pub(crate) fn place(self, chunk_type: ChunkType) -> usize
        ensures { result ≡ cond (sequel_type (type_number chunk_type)) self.count 0 }
    {
        match chunk_type {
            ChunkType::Sequel => self.count as usize,
            _ => 0,
        }
    }

    // Checks 24 and 25, of a message in another mode than 0.
    #[tactic(auto, unfolding(crate::specs::Checks::sequel_number))]
    pub(crate) fn check_sequel(self, message: &Message) -> Result<(), Refusal>
        ensures { (m a : List ℕ) (v : Configuration) → ReadAs m message.now → void_mode v.mode ≡ false → number_in result ≡ sequel_number m v (gathering_in self a) }
    {
        if message.chunk.chunk_type != ChunkType::Sequel {
            return Ok(());
        }
        if !self.is_on(message.channel) {
            return Err(Refusal::Stray);
        }
        if message.timestamp != self.next_timestamp() {
            return Err(Refusal::Timestamp);
        }
        Ok(())
    }

    // Check 26, with an assembly slice of so many octets lent.
    #[tactic(auto, unfolding(crate::specs::Checks::room_number))]
    pub(crate) fn check_room(
        self,
        work: Work,
        message: &Message,
        assembly: usize,
    ) -> Result<(), Refusal>
        ensures number { (m a : List ℕ) (v : Configuration) → ReadAs m message.now → WorkOf work (type_number message.now.chunk.chunk_type) v
            → number_in result ≡ room_number m v (gathering_in self a) assembly }
        ensures room { number_in result ≡ 0 → HasRoom work message.now self assembly }
    {
        let end = self.place(message.chunk.chunk_type) + message.chunk.section.len();
        if work == Work::Gather && (assembly < end || MOST < end) {
            return Err(Refusal::Assembly);
        }
        Ok(())
    }
}

// ---- what is gathered after a message

// The message is a fragment, in the mode of frames.
#[tactic(auto, unfolding(crate::specs::Record::configuration_of))]
fn gathers(message: &Message, governing: &Governing) -> bool
    ensures { result ≡ is_fragment (type_number message.now.chunk.chunk_type) (meaning governing.now) }
{
    matches!(
        (message.chunk.chunk_type, governing.mode),
        (ChunkType::First | ChunkType::Sequel, Some(Mode::Frame))
    )
}

impl Gathered {
    // No frame.
    const NONE: Gathered = Gathered {
        state: 0,
        count: 0,
        timestamp: 0,
        sequel: 0,
    };

    // The frame with one fragment more.
    fn grown(self, message: &Message) -> Gathered
        requires { end_behind self message.now ≤ most_octets }
        ensures { (m : List ℕ) → ReadAs m message.now → result ≡ grown_in m self }
    {
        let state = u32::from(message.channel.0) + 1;
        let end = self.place(message.chunk.chunk_type) + message.chunk.section.len();
        let count = end as u32;
        match message.chunk.chunk_type {
            ChunkType::Sequel => Gathered {
                state,
                count,
                timestamp: self.timestamp,
                sequel: self.sequel.wrapping_add(1),
            },
            _ => Gathered {
                state,
                count,
                timestamp: message.timestamp,
                sequel: 1,
            },
        }
    }

    // What the record holds of the frame after a message.
    #[tactic(auto, unfolding(crate::specs::Steps::gathered_after))]
    pub(crate) fn after(
        self,
        message: &Message,
        governing: &Governing,
        answer: &Result<Counts, Refusal>,
    ) -> Gathered
        requires { number_in answer.now ≡ 0 → is_fragment (type_number message.now.chunk.chunk_type) (meaning governing.now) ≡ true → end_behind self message.now ≤ most_octets }
        ensures { (m : List ℕ) → ReadAs m message.now → result ≡ gathered_after m (number_in answer.now) (meaning governing.now) self }
    {
        let fragment = gathers(message, governing);
        let here = self.is_on(message.channel);
        match answer {
            Ok(_) if fragment & !(message.last | message.close) => self.grown(message),
            Ok(_) if fragment | (message.routing.is_some() | message.close) & here =>
                Gathered::NONE,
            Err(Refusal::Timestamp | Refusal::Assembly) => Gathered::NONE,
            Err(Refusal::MatchBits) if here => Gathered::NONE,
            Err(Refusal::Samples | Refusal::Levels | Refusal::Room | Refusal::Meter)
                if fragment & message.last => Gathered::NONE,
            _ => self,
        }
    }
}

impl From<[u32; GATHERED]> for Gathered {
    ghost from_gives = { λ numbers result. result ≡ Rattle.receiver.specs.Record.gathered_in numbers };

    fn from(numbers: [u32; GATHERED]) -> Self {
        let [state, count, timestamp, sequel] = numbers;
        Gathered {
            state,
            count,
            timestamp,
            sequel,
        }
    }
}

impl From<Gathered> for [u32; GATHERED] {
    ghost from_gives = { λ gathered result. result ≡ Rattle.receiver.specs.Steps.gathered_by gathered };

    fn from(gathered: Gathered) -> Self {
        [
            gathered.state,
            gathered.count,
            gathered.timestamp,
            gathered.sequel,
        ]
    }
}
