// The header of a message, and checks 2 to 5. What is read of the octets is total: an octet past the end reads as 0, as in the definitions.
ghost use Rattle.std.specs.Prelude.{◌≡◌, ◌+◌, ◌≤◌, length, get_or, IfOk, IfSome, is_some};
ghost use Rattle.tags.specs.Choice.{refuse};
ghost use Rattle.receiver.specs.Message.{total_size, timestamp_of, is_sequel, cclf, configured, routes, data_start, data_of};
ghost use Rattle.receiver.specs.Checks.{header_number, front_number, wrong_length, passes_end};
ghost use Rattle.receiver.specs.Refusal.{number_in};
ghost use Rattle.receiver.specs.Views.{ReadAs, RoutingAs};

use super::chunk::{Chunk, ChunkType};
use super::incoming::{Message, Routing};
use super::refusal::Refusal;
use super::{ChannelId, ServiceId};

// The least and the largest length of a message.
pub(crate) const LEAST: usize = 8;

const LARGEST: usize = 65280;

impl<'a> Message<'a> {
    // The message that the octets hold, by checks 2 to 5.
    #[tactic(auto, using(crate::proofs::NumberLaws::first_refused, crate::proofs::HeaderLaws::header_in_turn), unfolding(crate::specs::Message::data_of))]
    pub(crate) fn read(octets: &'a [u8]) -> Result<Message<'a>, Refusal>
        ensures number { number_in result ≡ header_number octets.now }
        ensures read { IfOk result (λ message. ReadAs octets.now message) }
        ensures section_place { IfOk result (λ message. message.chunk.section.ref_ptr ≡ (octets.entry.ref_ptr.0, octets.entry.ref_ptr.1 + data_start octets.now)) }
    {
        check_front(octets)?;
        let chunk_type = ChunkType::try_from(octet(octets, 3))?;
        let start = check_start(octets)?;
        Ok(Message {
            channel: ChannelId(octet(octets, 2) % 64),
            chunk: Chunk {
                chunk_type,
                section: &octets[start..],
            },
            timestamp: timestamp_of(octets),
            last: is_sequel(octets) && is_marked(octets),
            close: is_configured(octets) && octet(octets, 9) / 2 % 2 == 1,
            routing: routing_of(octets, start),
        })
    }
}

// Checks 2 and 3.
pub(crate) fn check_front(octets: &[u8]) -> Result<(), Refusal>
    ensures { number_in result ≡ front_number octets.now }
{
    if wrong_length(octets) {
        return Err(Refusal::Length);
    }
    if octet(octets, 2) / 128 == 0 {
        return Err(Refusal::TopBit);
    }
    Ok(())
}

// Check 5: where the data section starts.
pub(crate) fn check_start(octets: &[u8]) -> Result<usize, Refusal>
    ensures number { number_in result ≡ refuse (passes_end octets.now) 5 }
    ensures start { IfOk result (λ start. (start ≡ data_start octets.now) × (start ≤ length octets.now)) }
{
    let start = data_start(octets);
    if octets.len() < start {
        return Err(Refusal::PastEnd);
    }
    Ok(start)
}

// The length is below 8, above 65,280, or not Total Size.
pub(crate) fn wrong_length(octets: &[u8]) -> bool
    ensures { result ≡ wrong_length octets.now }
{
    let n = octets.len();
    n < LEAST || LARGEST < n || n != total_size(octets)
}

// The octet at a place, 0 past the end.
pub(crate) fn octet(octets: &[u8], at: usize) -> u8
    ensures { result ≡ get_or octets.now at 0 }
{
    octets.get(at).copied().unwrap_or(0)
}

// Total Size: how many octets the message says that it has.
pub(crate) fn total_size(octets: &[u8]) -> usize
    ensures { result ≡ total_size octets.now }
{
    usize::from(u16::from_be_bytes([octet(octets, 0), octet(octets, 1)]))
}

// In microseconds.
fn timestamp_of(octets: &[u8]) -> u32
    ensures { result ≡ timestamp_of octets.now }
{
    u32::from_be_bytes([
        octet(octets, 4),
        octet(octets, 5),
        octet(octets, 6),
        octet(octets, 7),
    ])
}

// A number is compared: the octet may be no type.
fn is_sequel(octets: &[u8]) -> bool
    ensures { result ≡ is_sequel octets.now }
{
    octet(octets, 3) == ChunkType::Sequel as u8
}

// CCLF is set: a configuration header follows, but in a sequel it marks the last fragment of a frame.
fn is_marked(octets: &[u8]) -> bool
    ensures { result ≡ cclf octets.now }
{
    octet(octets, 2) / 64 % 2 == 1
}

fn is_configured(octets: &[u8]) -> bool
    ensures { result ≡ configured octets.now }
{
    !is_sequel(octets) && is_marked(octets)
}

// A configuration header follows, and it has Routing.
fn routes(octets: &[u8]) -> bool
    ensures { result ≡ routes octets.now }
{
    is_configured(octets) && octet(octets, 9) % 2 == 1
}

// What Routing brings, in a message whose data section starts there.
#[tactic(auto, unfolding(crate::specs::Message::tags_of))]
fn routing_of<'a>(octets: &'a [u8], start: usize) -> Option<Routing<'a>>
    requires start { (start ≡ data_start octets.now) × (start ≤ length octets.now) }
    ensures routes { is_some result ≡ routes octets.now }
    ensures brings { IfSome result (λ routing. RoutingAs octets.now routing) }
{
    if !routes(octets) {
        return None;
    }
    Some(Routing {
        mode: octet(octets, 11),
        service: ServiceId(octet(octets, 10)),
        match_bits: octet(octets, 9) / 16 % 4,
        tags: &octets[12..start],
    })
}

// Where the data section starts: after the header, the configuration header, or the configuration words of a Routing.
fn data_start(octets: &[u8]) -> usize
    ensures { result ≡ data_start octets.now }
{
    if !is_configured(octets) {
        return 8;
    }
    let words = if routes(octets) {
        usize::from(octet(octets, 8))
    } else {
        0
    };
    12 + words * 4
}
