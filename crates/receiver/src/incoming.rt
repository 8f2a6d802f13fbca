// A message taken apart.
ghost use Rattle.std.specs.Prelude.{◌<◌, ◌≤◌, length};
ghost use Rattle.receiver.specs.Modes.{channel_count};
ghost use Rattle.receiver.specs.Checks.{largest_message};

use super::chunk::Chunk;
use super::{ChannelId, ServiceId};

// What a message with Routing brings: a mode and a service that are not checked yet, its match bits and its tags.
#[derive(Clone, Copy)]
pub struct Routing<'a> {
    pub mode: u8,
    pub service: ServiceId,
    pub match_bits: u8,
    pub tags: &'a [u8],
}

// A message that passes checks 2 to 5. `last` marks the last fragment of a frame; it and `close` are bits of the message, and speak of no other
// field. Which octets were read stands in the clauses, by ReadAs: tried in a ghost field, which takes a fact and no list; a field with the
// whole slice would keep a second time what is taken apart.
#[derive(Clone, Copy)]
pub struct Message<'a> {
    pub channel: ChannelId,
    pub chunk: Chunk<'a>,
    pub timestamp: u32,
    pub last: bool,
    pub close: bool,
    pub routing: Option<Routing<'a>>,
    ghost few_channels: { channel.0 < channel_count },
    ghost few_octets: { length chunk.section.now ≤ largest_message },
}
