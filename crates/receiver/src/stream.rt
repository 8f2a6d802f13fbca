// Messages laid end to end in one slice: where the one at the front ends, and the parts of a set.
ghost use Rattle.std.specs.Prelude.{◌≡◌, ◌<◌, ◌≤◌, cond, length, IfSome, Some, None};
ghost use Rattle.std.specs.Iterator.{YieldsFirstRef, item_count};
ghost use Rattle.receiver.specs.Message.{total_size};
ghost use Rattle.receiver.specs.Stream.{is_cut, entry_of, parts_in};

use super::header;

// The size of the message at the front of octets; none where they are cut, or none are left.
fn size_at_front(octets: &[u8]) -> Option<usize>
    ensures value { result ≡ cond (is_cut octets.now) None (Some (total_size octets.now)) }
    ensures bounds { IfSome result (λ size. (0 < size) × (size ≤ length octets.now)) }
{
    let n = octets.len();
    let size = header::total_size(octets);
    let whole = (2 <= n) & (header::LEAST <= size) & (size <= n);
    whole.then_some(size)
}

// The size of the message at the front of octets; 0 where they are cut, or none are left. No Option: it is public, and cannot fail.
#[tactic(auto, unfolding(crate::specs::Stream::entry_of))]
pub fn entry(octets: &[u8]) -> usize
    ensures value { result ≡ entry_of octets.now }
    ensures upper_bound { result ≤ length octets.now }
{
    size_at_front(octets).unwrap_or(0)
}

// The parts of a set in turn (C-14): its messages, and the octets behind them, if any, as one more.
#[derive(Drop)]
pub(crate) struct Parts<'a> {
    octets: &'a [u8],
}

impl<'a> Parts<'a> {
    pub(crate) fn of(octets: &'a [u8]) -> Self
        ensures { result.octets.now ≡ octets.now }
    {
        Parts { octets }
    }
}

impl<'a> Iterator for Parts<'a> {
    type Item = &'a [u8];

    ghost next_gives = { YieldsFirstRef (λ s. parts_in s.octets.now) };

    ghost remaining = { item_count (λ s. parts_in s.octets.now) };

    fn next(&mut self) -> Option<&'a [u8]> {
        if self.octets.is_empty() {
            return None;
        }
        let size = size_at_front(self.octets).unwrap_or(self.octets.len());
        let (part, rest) = self.octets.split_at(size);
        self.octets = rest;
        Some(part)
    }
}
