// One message: taken apart, what governs it found, judged and written, and the record settled. The work is done on a record that is lent, by a
// host or by the call that takes one as a value.
ghost use Rattle.std.specs.Prelude.{◌≡◌, true, false, List, ℕ, ◌+◌, ◌<◌, ◌^◌, IfOk};
ghost use Rattle.receiver.specs.Slices.{slices};
ghost use Rattle.receiver.specs.Gathering.{Gathering, whole_of};
ghost use Rattle.receiver.specs.Meters.{over_limit};
ghost use Rattle.receiver.specs.Checks.{header_number, route_number, governs};
ghost use Rattle.receiver.specs.Effects.{reply_of};
ghost use Rattle.receiver.specs.Record.{record_in, gathered_in, channels_of, sums_of, consistent};
ghost use Rattle.receiver.specs.Contract.{outcome, readings_in, sums_in, Answered};
ghost use Rattle.receiver.specs.Steps.{counts_of, meters_by, risen_from, Handled};
ghost use Rattle.receiver.specs.Views.{ReadAs, meaning, done_of, reply_in};
ghost use Rattle.receiver.specs.declared.Receiver.{Receiver};

use super::draw::Counts;
use super::gather::Gathered;
use super::governing::Governing;
use super::incoming::Message;
use super::modes::Mode;
use super::place::mewkoast_offer_on;
use super::record::{GATHERED, METERS, RECORD, is_sound};
use super::refusal::Refusal;
use super::work::{carry_out, judge};
use super::{Outcome, Readings, Receiver, Reply};
use tags::kept::space_in;

// A message that something governs: judged, and done where it passes; a call of its own, so that `?` does not end the one that settles. Rows,
// levels and assembly are lent one by one here and below: tried in a struct, a call keeps the loan of a slice in one field while another is used,
// which the borrow checker does not cover. Message, governing, gathered and meters come one by one too: each clause is over some of them, and
// would reach them through a struct. That the meters are within the limit stands in four clauses: Readings is C's, where any numbers may be, and
// a second type of readings is longer than the four.
fn handle(
    message: &Message,
    governing: &Governing,
    channels: &[u8; RECORD],
    gathered: Gathered,
    meters: Readings,
    rows: &mut [i32],
    levels: &mut [u8],
    assembly: &mut [u8],
) -> Result<Counts, Refusal>
    requires { over_limit (sums_in meters) ≡ false }
    ensures { (m : List ℕ) (r : Receiver) → ReadAs m message.now → header_number m ≡ 0 → route_number m ≡ 0 → r.channels ≡ channels.now → gathered_in r.gathered ≡ gathered
        → sums_of r ≡ sums_in meters → meaning governing.now ≡ governs m (channels_of r)
        → Handled r m (slices rows.old levels.old assembly.old) (done_of result) (slices rows.new levels.new assembly.new) }
{
    let work = judge(message, governing, channels, gathered, assembly.len())?;
    carry_out(
        work, message, governing, gathered, meters, rows, levels, assembly,
    )
}

impl Readings {
    // With what was written.
    fn with(self, counts: Counts) -> Self
        requires { (self.lit_time + counts.lit_time < 2 ^ 64) × (self.points + counts.points < 2 ^ 64) × (self.lit_points + counts.lit_points < 2 ^ 64) }
        ensures { meters_by result ≡ risen_from self counts }
    {
        Readings {
            lit_time: self.lit_time + counts.lit_time,
            points: self.points + u64::from(counts.points),
            lit_points: self.lit_points + u64::from(counts.lit_points),
        }
    }
}

impl Governing {
    // The space modifier in force: there is none without a dictionary.
    #[tactic(auto, unfolding(crate::specs::Record::configuration_of))]
    fn space(&self) -> u16
        ensures { result ≡ (meaning self.now).sample.space }
    {
        match self.mode {
            Some(Mode::Wave | Mode::Frame) => space_in(&self.area),
            _ => 0,
        }
    }

    // The reply to an accepted message.
    #[tactic(auto, unfolding(crate::specs::Effects::reply_of))]
    fn reply(&self, message: &Message, counts: Counts) -> Reply
        ensures number { result.number ≡ 0 }
        ensures value { (m : List ℕ) (w : Gathering) → ReadAs m message.now → counts ≡ counts_of (whole_of m (meaning self.now) w) (meaning self.now) → result ≡ reply_of m 0 (meaning self.now) w }
    {
        Reply {
            number: 0,
            channel: message.channel,
            chunk_type: message.chunk.chunk_type as u8,
            timestamp: message.timestamp,
            space: self.space(),
            points: counts.points,
            lit_points: counts.lit_points,
            levels: counts.levels,
        }
    }
}

// One message offered to a record that check 1 passes; its arrays are lent one by one, as a C host lends them.
pub(crate) fn answer(
    channels: &mut [u8; RECORD],
    meters: &mut [u64; METERS],
    gathered: &mut [u32; GATHERED],
    octets: &[u8],
    rows: &mut [i32],
    levels: &mut [u8],
    assembly: &mut [u8],
) -> Result<Reply, Refusal>
    requires { consistent (record_in channels.old meters.old gathered.old) ≡ true }
    ensures answered { Answered (record_in channels.old meters.old gathered.old) octets.now (slices rows.old levels.old assembly.old) (outcome (record_in channels.new meters.new gathered.new) (reply_in result)) (slices rows.new levels.new assembly.new) }
    ensures accepted { IfOk result (λ reply. reply.number ≡ 0) }
{
    let message = Message::read(octets)?;
    let mut governing = Governing::closed();
    governing.find(channels, &message)?;
    let frame = Gathered::from(*gathered);
    let readings = Readings::from(*meters);
    let answer = handle(
        &message, &governing, channels, frame, readings, rows, levels, assembly,
    );
    governing.settle(channels, &message, &answer);
    *gathered = frame.after(&message, &governing, &answer).into();
    let counts = answer?;
    *meters = readings.with(counts).into();
    Ok(governing.reply(&message, counts))
}

// One message offered to any record, lent as above.
#[inline(always)]
#[tactic(auto, using(crate::proofs::RefusalLaws::answered_inconsistent))]
pub(crate) fn offer(
    channels: &mut [u8; RECORD],
    meters: &mut [u64; METERS],
    gathered: &mut [u32; GATHERED],
    octets: &[u8],
    rows: &mut [i32],
    levels: &mut [u8],
    assembly: &mut [u8],
) -> Reply
    ensures { Answered (record_in channels.old meters.old gathered.old) octets.now (slices rows.old levels.old assembly.old) (outcome (record_in channels.new meters.new gathered.new) result) (slices rows.new levels.new assembly.new) }
{
    if !is_sound(channels, meters) {
        return Refusal::Record.into();
    }
    answer(channels, meters, gathered, octets, rows, levels, assembly).into()
}

impl Receiver {
    // One message offered with the slices lent for it, by the call in place; the receiver is left as the next one.
    fn offer(
        &mut self,
        octets: &[u8],
        rows: &mut [i32],
        levels: &mut [u8],
        assembly: &mut [u8],
    ) -> Reply
        ensures { Answered self.old octets.now (slices rows.old levels.old assembly.old) (outcome self.new result) (slices rows.new levels.new assembly.new) }
    {
        mewkoast_offer_on(
            &mut self.channels,
            &mut self.meters,
            &mut self.gathered,
            octets,
            rows,
            levels,
            assembly,
        )
    }

    // The same by value: the reply, and the next receiver.
    pub fn message(
        self,
        octets: &[u8],
        rows: &mut [i32],
        levels: &mut [u8],
        assembly: &mut [u8],
    ) -> Outcome
        ensures { Answered self octets.now (slices rows.old levels.old assembly.old) result (slices rows.new levels.new assembly.new) }
    {
        let mut receiver = self;
        let reply = receiver.offer(octets, rows, levels, assembly);
        Outcome { receiver, reply }
    }
}
