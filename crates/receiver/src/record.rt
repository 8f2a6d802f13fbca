// The record: its limit, the consistency rule of a channel, check 15, and the calls that start it and read its meters.
ghost use Rattle.std.specs.Prelude.{◌≡◌, cond, List, ℕ, length, Ok, Err};
ghost use Rattle.receiver.specs.Meters.{sums, over_limit};
ghost use Rattle.receiver.specs.Effects.{bare_reply};
ghost use Rattle.receiver.specs.Modes.{channel_count};
ghost use Rattle.receiver.specs.LookBack.{starting_sums};
ghost use Rattle.receiver.specs.Contract.{start_number, Started, readings_in, readings_of, sums_in};
ghost use Rattle.receiver.specs.Record.{gathered_count, record_in, sized, consistent_at, consistent_up_to, consistent};
ghost use Rattle.receiver.specs.Refusal.{refusal_number};
ghost use Rattle.receiver.specs.Kinds.{mode_number};
ghost use Rattle.receiver.specs.Views.{reply_in};
ghost use Rattle.receiver.specs.Steps.{meters_by, held_states};
ghost use Rattle.receiver.specs.declared.refusal.Refusal.TheVariants.{Meter};

use super::channels::{AREAS, CHANNELS, COLOURS, SIZES};
use super::modes::{CLOSED, Mode, state_of};
use super::refusal::Refusal;
use super::{ChannelId, Outcome, Readings, Receiver, Reply};
use tags::kept::{AREA, sizes_fit};

// The octets and the meters of a record.
pub const RECORD: usize = AREAS + CHANNELS * AREA;

pub const METERS: usize = 3;

// The numbers of what is gathered.
pub const GATHERED: usize = 4;

// The limit of each meter: ten million hours in microseconds.
pub const LIMIT: u64 = 36_000_000_000_000_000;

impl Readings {
    // A reading is above the limit.
    pub(crate) fn is_over_limit(self) -> bool
        ensures { result ≡ over_limit (sums_in self) }
    {
        (LIMIT < self.lit_time) | (LIMIT < self.points) | (LIMIT < self.lit_points)
    }

    // Check 23.
    pub(crate) fn within_limit(self) -> Result<Self, Refusal>
        ensures { result ≡ cond (over_limit (sums_in self)) (Err Meter) (Ok self) }
    {
        if self.is_over_limit() {
            return Err(Refusal::Meter);
        }
        Ok(self)
    }

    // The readings that start sets: 0 in each where one is above the limit.
    pub(crate) fn starting(self) -> Self
        ensures { sums_in result ≡ starting_sums (sums_in self) }
    {
        self.within_limit().unwrap_or_default()
    }

    // What start answers to them.
    pub(crate) fn start_reply(self) -> Reply
        ensures { result ≡ bare_reply (start_number (sums_in self)) }
    {
        match self.within_limit() {
            Ok(_) => Reply::default(),
            Err(refusal) => refusal.into(),
        }
    }
}

impl From<[u64; METERS]> for Readings {
    ghost from_gives = { λ meters readings. readings ≡ readings_in meters };

    fn from(meters: [u64; METERS]) -> Self {
        let [lit_time, points, lit_points] = meters;
        Readings {
            lit_time,
            points,
            lit_points,
        }
    }
}

impl From<Readings> for [u64; METERS] {
    ghost from_gives = { λ readings meters. meters ≡ meters_by readings };

    fn from(readings: Readings) -> Self {
        [readings.lit_time, readings.points, readings.lit_points]
    }
}

// Every refusal's reply, and start's own, is 0 in all but the number.
impl From<Refusal> for Reply {
    ghost from_gives = { λ refusal reply. reply ≡ bare_reply (refusal_number refusal) };

    fn from(refusal: Refusal) -> Self {
        Reply {
            number: refusal.number(),
            ..Reply::default()
        }
    }
}

impl From<Result<Reply, Refusal>> for Reply {
    ghost from_gives = { λ answer reply. reply ≡ reply_in answer };

    fn from(answer: Result<Reply, Refusal>) -> Self {
        match answer {
            Ok(reply) => reply,
            Err(refusal) => refusal.into(),
        }
    }
}

// The consistency rule for one channel. No test stands behind another, so that many channels are tested at a time.
#[tactic(auto, unfolding(crate::specs::Record::consistent_at))]
fn sound_channel(state: u8, size: u8, colours: u8) -> bool
    ensures { (bits : ℕ) → result ≡ consistent_at (record { state = state; match_bits = bits; size = size; colours = colours }) }
{
    Mode::try_from(state.saturating_sub(1)).is_ok() & sizes_fit(size, colours)
}

// The consistency rule for every channel.
#[tactic(auto, unfolding(crate::specs::Record::consistent_up_to))]
fn sound_channels(channels: &[u8; RECORD]) -> bool
    ensures { result ≡ consistent_up_to channels.now channel_count }
{
    // A loop by index, which tests every channel: `.all` takes 1,186 instructions a call for 105.
    let mut sound = true;
    for c in 0..CHANNELS {
        sound &= sound_channel(channels[c], channels[SIZES + c], channels[COLOURS + c]);
    }
    sound
}

// Check 1.
#[tactic(auto, unfolding(crate::specs::Record::consistent))]
pub(crate) fn is_sound(channels: &[u8; RECORD], meters: &[u64; METERS]) -> bool
    ensures { (gathered : List ℕ) → length gathered ≡ gathered_count → result ≡ consistent (record_in channels.now meters.now gathered) }
{
    !Readings::from(*meters).is_over_limit() & sound_channels(channels)
}

// Check 15: another channel is open in the mode.
#[tactic(auto, unfolding(crate::specs::Steps::held_states))]
pub(crate) fn held_elsewhere(channels: &[u8; RECORD], mode: Mode, channel: ChannelId) -> bool
    ensures { result ≡ held_states channels.now (mode_number mode) channel.0 channel_count }
{
    let state = state_of(Some(mode));
    // A loop by index, which reads every channel: `.any` takes 355 instructions a call for 239.
    let mut held = false;
    for other in 0..CHANNELS {
        held |= (other != usize::from(channel.0)) & (channels[other] == state);
    }
    held
}

// Arrays that are lent are a record's: they have its lengths.
pub(crate) fn is_record(channels: &[u8], meters: &[u64], gathered: &[u32]) -> bool
    ensures { result ≡ sized (record_in channels.now meters.now gathered.now) }
{
    (channels.len() == RECORD) & (meters.len() == METERS) & (gathered.len() == GATHERED)
}

impl Receiver {
    // A receiver newly started with three readings; 23 with readings of 0 where one is above the limit. Three
    // numbers and no Readings: it is public, and C calls it so.
    pub fn start(lit_time: u64, points: u64, lit_points: u64) -> Outcome
        ensures { Started (sums lit_time points lit_points) result }
    {
        let readings = Readings {
            lit_time,
            points,
            lit_points,
        };
        Outcome {
            receiver: Receiver {
                meters: readings.starting().into(),
                gathered: [0; GATHERED],
                channels: [CLOSED; RECORD],
            },
            reply: readings.start_reply(),
        }
    }

    // The three readings as they stand.
    pub fn readings(self) -> Readings
        ensures { result ≡ readings_of self }
    {
        self.meters.into()
    }
}
