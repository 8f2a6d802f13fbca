// The receiver as a C host calls it: structs by value, slices as a pointer and a length. Each call is the receiver's own, with its whole
// promise; the host owes valid pointers and lengths and nothing else. The calls on a record that the host lends stand in place.rt.
ghost use Rattle.std.specs.Prelude.{◌≡◌};
ghost use Rattle.receiver.specs.Slices.{slices};
ghost use Rattle.receiver.specs.Meters.{sums};
ghost use Rattle.receiver.specs.Contract.{Started, Answered, Patched, readings_of};
ghost use Rattle.receiver.specs.Section.{span_of};

use super::{Outcome, Readings, Receiver, SetOutcome, section};

// Where the data section stands in a message: its first octet and its length. A part of a slice cannot be returned to C.
#[repr(C)]
#[derive(Clone, Copy)]
pub struct Span {
    pub start: usize,
    pub length: usize,
}

#[unsafe(no_mangle)]
pub extern "C" fn mewkoast_start(lit_time: u64, points: u64, lit_points: u64) -> Outcome
    ensures { Started (sums lit_time points lit_points) result }
{
    Receiver::start(lit_time, points, lit_points)
}

#[unsafe(no_mangle)]
pub extern "C" fn mewkoast_message(
    receiver: Receiver,
    octets: &[u8],
    rows: &mut [i32],
    levels: &mut [u8],
    assembly: &mut [u8],
) -> Outcome
    ensures { Answered receiver octets.now (slices rows.old levels.old assembly.old) result (slices rows.new levels.new assembly.new) }
{
    receiver.message(octets, rows, levels, assembly)
}

#[unsafe(no_mangle)]
pub extern "C" fn mewkoast_patch(receiver: Receiver, octets: &[u8]) -> SetOutcome
    ensures { Patched receiver octets.now result }
{
    receiver.patch(octets)
}

#[unsafe(no_mangle)]
pub extern "C" fn mewkoast_readings(receiver: Receiver) -> Readings
    ensures { result ≡ readings_of receiver }
{
    receiver.readings()
}

#[unsafe(no_mangle)]
pub extern "C" fn mewkoast_data_section(octets: &[u8]) -> Span
    ensures { result ≡ span_of octets.now }
{
    let start = section::section_start(octets);
    let part = section::data_section(octets);
    Span {
        start,
        length: part.len(),
    }
}
