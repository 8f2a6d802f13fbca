// The archive of the receiver for C hosts. Each call is that of the same name in crates/receiver/src/host.rt or place.rt, with its whole
// promise; proofs/Exports.antt says that demand 3 speaks of those that start, change or read a record. They are written again,
// since an archive for C is a crate above its library, and exports its own functions alone.
#![tactic(auto)]

ghost use Rattle.std.specs.Prelude.{◌≡◌};
ghost use Rattle.receiver.specs.Slices.{slices};
ghost use Rattle.receiver.specs.Meters.{sums};
ghost use Rattle.receiver.specs.Record.{record_in};
ghost use Rattle.receiver.specs.Contract.{outcome, Started, StartedOn, Answered, readings_of, readings_in, set_outcome, Patched};
ghost use Rattle.receiver.specs.Section.{span_of};

use receiver::host::Span;
use receiver::{Outcome, Readings, Receiver, Reply, SetOutcome, SetReply, host, place};

#[unsafe(no_mangle)]
pub extern "C" fn mewkoast_start(lit_time: u64, points: u64, lit_points: u64) -> Outcome
    ensures { Started (sums lit_time points lit_points) result }
{
    host::mewkoast_start(lit_time, points, lit_points)
}

#[unsafe(no_mangle)]
pub extern "C" fn mewkoast_message(
    receiver: Receiver,
    octets: &[u8],
    rows: &mut [i32],
    levels: &mut [u8],
    assembly: &mut [u8],
) -> Outcome
    ensures { Answered receiver octets.now (slices rows.old levels.old assembly.old) result (slices rows.new levels.new assembly.new) }
{
    host::mewkoast_message(receiver, octets, rows, levels, assembly)
}

#[unsafe(no_mangle)]
pub extern "C" fn mewkoast_patch(receiver: Receiver, octets: &[u8]) -> SetOutcome
    ensures { Patched receiver octets.now result }
{
    host::mewkoast_patch(receiver, octets)
}

#[unsafe(no_mangle)]
pub extern "C" fn mewkoast_readings(receiver: Receiver) -> Readings
    ensures { result ≡ readings_of receiver }
{
    host::mewkoast_readings(receiver)
}

#[unsafe(no_mangle)]
pub extern "C" fn mewkoast_data_section(octets: &[u8]) -> Span
    ensures { result ≡ span_of octets.now }
{
    host::mewkoast_data_section(octets)
}

#[unsafe(no_mangle)]
pub extern "C" fn mewkoast_begin_on(
    channels: &mut [u8],
    meters: &mut [u64],
    gathered: &mut [u32],
    lit_time: u64,
    points: u64,
    lit_points: u64,
) -> Reply
    ensures { StartedOn (sums lit_time points lit_points) (record_in channels.old meters.old gathered.old) (outcome (record_in channels.new meters.new gathered.new) result) }
{
    place::mewkoast_begin_on(channels, meters, gathered, lit_time, points, lit_points)
}

#[unsafe(no_mangle)]
pub extern "C" fn mewkoast_offer_on(
    channels: &mut [u8],
    meters: &mut [u64],
    gathered: &mut [u32],
    octets: &[u8],
    rows: &mut [i32],
    levels: &mut [u8],
    assembly: &mut [u8],
) -> Reply
    ensures { Answered (record_in channels.old meters.old gathered.old) octets.now (slices rows.old levels.old assembly.old) (outcome (record_in channels.new meters.new gathered.new) result) (slices rows.new levels.new assembly.new) }
{
    place::mewkoast_offer_on(channels, meters, gathered, octets, rows, levels, assembly)
}

#[unsafe(no_mangle)]
pub extern "C" fn mewkoast_patch_on(
    channels: &mut [u8],
    meters: &[u64],
    gathered: &mut [u32],
    octets: &[u8],
) -> SetReply
    ensures { Patched (record_in channels.old meters.now gathered.old) octets.now (set_outcome (record_in channels.new meters.now gathered.new) result) }
{
    place::mewkoast_patch_on(channels, meters, gathered, octets)
}

#[unsafe(no_mangle)]
pub extern "C" fn mewkoast_readings_on(meters: &[u64]) -> Readings
    ensures { result ≡ readings_in meters.now }
{
    place::mewkoast_readings_on(meters)
}
