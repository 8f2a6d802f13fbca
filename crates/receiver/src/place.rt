// The receiver on a record that stays where the host keeps it: its octets, its meters and the four numbers of what is gathered are lent, and
// left as those of the next receiver. No call but that of a set copies the record. A host in Rattle and one in C make
// the same calls; the calls that take a receiver as a value do the same to its arrays.
ghost use Rattle.std.specs.Prelude.{◌≡◌};
ghost use Rattle.receiver.specs.Slices.{slices};
ghost use Rattle.receiver.specs.Meters.{sums};
ghost use Rattle.receiver.specs.Record.{record_in};
ghost use Rattle.receiver.specs.Contract.{outcome, StartedOn, Answered, readings_in, set_outcome, Patched};

use super::modes::CLOSED;
use super::record::{GATHERED, METERS, RECORD, is_record};
use super::refusal::Refusal;
use super::sets::offer_each;
use super::{Readings, Reply, SetReply, message};

// How many octets a host lends as the channels of a record.
pub const CHANNEL_OCTETS: usize = RECORD;

// How many meters it lends beside them.
pub const METER_COUNT: usize = METERS;

// How many numbers of what is gathered.
pub const GATHERED_COUNT: usize = GATHERED;

// Start on a record that is lent. Arrays of other lengths are no record, and stay as they are.
#[unsafe(no_mangle)]
pub extern "C" fn mewkoast_begin_on(
    channels: &mut [u8],
    meters: &mut [u64],
    gathered: &mut [u32],
    lit_time: u64,
    points: u64,
    lit_points: u64,
) -> Reply
    ensures { StartedOn (sums lit_time points lit_points) (record_in channels.old meters.old gathered.old) (outcome (record_in channels.new meters.new gathered.new) result) }
{
    if !is_record(channels, meters, gathered) {
        return Refusal::Record.into();
    }
    let readings = Readings {
        lit_time,
        points,
        lit_points,
    };
    let first: [u64; METERS] = readings.starting().into();
    channels.fill(CLOSED);
    meters.copy_from_slice(&first);
    gathered.fill(0);
    readings.start_reply()
}

// One message offered with the slices lent for it, to a record that is lent too and left as the next one. Arrays of other lengths are no
// record.
#[unsafe(no_mangle)]
pub extern "C" fn mewkoast_offer_on(
    channels: &mut [u8],
    meters: &mut [u64],
    gathered: &mut [u32],
    octets: &[u8],
    rows: &mut [i32],
    levels: &mut [u8],
    assembly: &mut [u8],
) -> Reply
    ensures { Answered (record_in channels.old meters.old gathered.old) octets.now (slices rows.old levels.old assembly.old) (outcome (record_in channels.new meters.new gathered.new) result) (slices rows.new levels.new assembly.new) }
{
    if !is_record(channels, meters, gathered) {
        return Refusal::Record.into();
    }
    message::offer(
        channels.as_mut_array().unwrap(),
        meters.as_mut_array().unwrap(),
        gathered.as_mut_array().unwrap(),
        octets,
        rows,
        levels,
        assembly,
    )
}

// The messages of a set, end to end in one slice, offered to a record that is lent: all accepted, and it is left as the last one leaves it,
// or none, and it is left as it came.
#[unsafe(no_mangle)]
pub extern "C" fn mewkoast_patch_on(
    channels: &mut [u8],
    meters: &[u64],
    gathered: &mut [u32],
    octets: &[u8],
) -> SetReply
    ensures { Patched (record_in channels.old meters.now gathered.old) octets.now (set_outcome (record_in channels.new meters.now gathered.new) result) }
{
    if !is_record(channels, meters, gathered) {
        return SetReply::refused(0, Refusal::Record);
    }
    offer_each(
        channels.as_mut_array().unwrap(),
        meters.as_array().unwrap(),
        gathered.as_mut_array().unwrap(),
        octets,
    )
}

// The three readings of meters that are lent.
#[unsafe(no_mangle)]
pub extern "C" fn mewkoast_readings_on(meters: &[u64]) -> Readings
    ensures { result ≡ readings_in meters.now }
{
    let meter = |i: usize| meters.get(i).copied().unwrap_or(0);
    Readings {
        lit_time: meter(0),
        points: meter(1),
        lit_points: meter(2),
    }
}
