// The data section of a message, handed back to the host as a part of its own slice.
ghost use Rattle.std.specs.Prelude.{◌≡◌, ◌+◌, ◌≤◌, length, IfOk};
ghost use Rattle.receiver.specs.Message.{data_start};
ghost use Rattle.receiver.specs.Section.{data_section, section_start, section_number};
ghost use Rattle.receiver.specs.Refusal.{number_in};

use super::header::{check_front, check_start};
use super::refusal::Refusal;

// Where the data section starts, by checks 2, 3 and 5. The type plays no part.
#[tactic(auto, using(crate::proofs::NumberLaws::first_refused, crate::proofs::HeaderLaws::section_in_turn))]
fn start_of(octets: &[u8]) -> Result<usize, Refusal>
    ensures number { number_in result ≡ section_number octets.now }
    ensures start { IfOk result (λ start. (start ≡ data_start octets.now) × (start ≤ length octets.now)) }
{
    check_front(octets)?;
    check_start(octets)
}

// Where the data section starts; 0 where there is none, as C has it in Span. No Option: it is public, and cannot fail.
#[tactic(auto, unfolding(crate::specs::Section::section_start))]
pub fn section_start(octets: &[u8]) -> usize
    ensures { result ≡ section_start octets.now }
{
    start_of(octets).unwrap_or(0)
}

// The data section from where it starts, as the message's own octets; the empty part where 2, 3 or 5 applies.
#[tactic(auto, unfolding(crate::specs::Section::section_start, crate::specs::Section::data_section, crate::specs::Message::data_of))]
pub fn data_section(octets: &[u8]) -> &[u8]
    ensures result_value { result.now ≡ data_section octets.now }
    ensures ref_ptr_value { result.ref_ptr ≡ (octets.entry.ref_ptr.0, octets.entry.ref_ptr.1 + section_start octets.now) }
{
    match start_of(octets) {
        Ok(start) => &octets[start..],
        Err(_) => &octets[..0],
    }
}
