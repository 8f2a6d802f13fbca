// The signals that differ from point to point, listed once a chunk. Those of one kind are two lists, of the signals with a precision
// octet and of those without, so that no loop over a list tests whether an octet is there.
ghost use Rattle.std.specs.Prelude.{◌≡◌, ◌+◌, ◌-◌, ◌<◌, ◌≤◌, false, get_or, length, ltb, pos, true};
ghost use Rattle.samples.specs.Limits.{colour_limit, row_size};
ghost use Rattle.samples.specs.Signals.{BothReadable, BothStored, Gathered, NoneLit, NoneLitIn, Readable, Stored, is_free, scaled_in, signed_in};

use super::fixed_list::FixedList;
use super::limits::COLOUR_LIMIT;
use super::places::Places;
use std::ops::Range;

// A slot, and the places of its signal's two octets; that of a precision octet which a sample hasn't is at or past the sample's end. An `Option`
// there is no plainer: which list a signal stands in says already whether it has the octet, and no loop may test it for each point.
#[derive(Clone, Copy, Default)]
pub struct Signal {
    pub slot: u8,
    pub first: u8,
    pub second: u8,
}

// The signals of one kind, with a precision octet and without.
#[derive(Drop)]
pub struct Kind {
    fine: FixedList<Signal, COLOUR_LIMIT>,
    coarse: FixedList<Signal, COLOUR_LIMIT>,
}

// The slot has no fixed wavelength.
#[tactic(auto, unfolding(crate::specs::Signals::is_free))]
fn is_free(waves: &[u16], slot: usize) -> bool
    ensures { result ≡ is_free waves.now slot }
{
    slot < 16 || waves.get(slot - 16).copied().unwrap_or(0) == 0
}

impl Signal {
    // The precision octet, 0 where there is none; `precise` says whether there is one. It goes along, since callers know it of a whole list, so
    // that no loop tests it.
    fn low(&self, precise: bool, sample: &[u8]) -> u8
        requires { ltb self.now.second (length sample.now) ≡ precise }
        ensures { result ≡ get_or sample.now self.now.second 0 }
    {
        if precise {
            sample[usize::from(self.second)]
        } else {
            0
        }
    }

    // The value with its sign, which is that of the first octet.
    fn signed(&self, precise: bool, sample: &[u8]) -> i32
        requires { (self.now.first < length sample.now) × (ltb self.now.second (length sample.now) ≡ precise) }
        ensures { result ≡ signed_in sample.now self.now }
    {
        let high = i32::from(sample[usize::from(self.first)].cast_signed());
        high * 256 + i32::from(self.low(precise, sample))
    }

    // The value, divided by 2 to the power `shift`. That `shift` is below 8 stands in four clauses: a type of its own would be made of each
    // hint and read here alone.
    pub fn scaled(&self, precise: bool, shift: u8, sample: &[u8]) -> u32
        requires { (self.now.first < length sample.now) × (ltb self.now.second (length sample.now) ≡ precise) × (shift < 8) }
        ensures value { result ≡ scaled_in shift sample.now self.now }
        ensures fits { result < 65536 }
    {
        let high = u32::from(sample[usize::from(self.first)]);
        (high * 256 + u32::from(self.low(precise, sample))) >> shift
    }
}

// The signals of a list with their signs. Beside `put_scaled`, which shifts each and tells whether all are 0: one function of both would take the
// number, the shift and what is joined from its caller, and be no plainer.
fn put_signed(list: &[Signal], precise: bool, sample: &[u8], row: &mut [i32])
    requires { (length row.old ≡ row_size) × Readable list.now precise (length sample.now) }
    ensures { Stored (signed_in sample.now) list.now (length list.now) row.old row.new }
{
    for signal in list {
        row[usize::from(signal.slot)] = signal.signed(precise, sample);
    }
}

// The signals of a list, divided by 2 to the power `shift`; and a number that is 0 if all of theirs are.
fn put_scaled(list: &[Signal], precise: bool, shift: u8, sample: &[u8], row: &mut [i32]) -> u32
    requires { (length row.old ≡ row_size) × (shift < 8) × Readable list.now precise (length sample.now) }
    ensures stored { Stored (λ x. pos (scaled_in shift sample.now x)) list.now (length list.now) row.old row.new }
    ensures dark { NoneLit result (scaled_in shift sample.now) list.now (length list.now) }
{
    let mut joined = 0;
    for signal in list {
        let value = signal.scaled(precise, shift, sample);
        row[usize::from(signal.slot)] = value as i32;
        joined |= value;
    }
    joined
}

impl Kind {
    // The signals of the slots that have a first octet and no fixed wavelength.
    pub fn gather(places: &Places, waves: &[u16], slots: Range<usize>) -> Self
        requires { (slots.start ≤ slots.end) × (slots.end ≤ row_size) × (slots.end ≤ slots.start + colour_limit) }
        ensures { Gathered places.now.table places.now.width waves.now slots.start (slots.end - slots.start) (slots.end - slots.start) result }
    {
        let mut fine = FixedList::new(Signal::default());
        let mut coarse = FixedList::new(Signal::default());
        for slot in slots {
            let signal = places.signal(slot);
            if is_free(waves, slot) && places.within(signal.first) {
                if places.within(signal.second) {
                    fine.push(signal);
                } else {
                    coarse.push(signal);
                }
            }
        }
        Kind { fine, coarse }
    }

    pub fn put_signed(&self, sample: &[u8], row: &mut [i32])
        requires { (length row.old ≡ row_size) × BothReadable self.now (length sample.now) }
        ensures { BothStored (signed_in sample.now) self.now row.old row.new }
    {
        put_signed(self.fine.as_slice(), true, sample, row);
        put_signed(self.coarse.as_slice(), false, sample, row);
    }

    pub fn put_scaled(&self, shift: u8, sample: &[u8], row: &mut [i32]) -> u32
        requires { (length row.old ≡ row_size) × (shift < 8) × BothReadable self.now (length sample.now) }
        ensures stored { BothStored (λ x. pos (scaled_in shift sample.now x)) self.now row.old row.new }
        ensures dark { NoneLitIn result (scaled_in shift sample.now) self.now }
    {
        put_scaled(self.fine.as_slice(), true, shift, sample, row)
            | put_scaled(self.coarse.as_slice(), false, shift, sample, row)
    }
}
