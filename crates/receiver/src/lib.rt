// The channel receiver: messages in, replies, rows, levels and three meters out. It stands on the tag layer's promises.
#![tactic(auto)]

mod channels;
mod chunk;
mod draw;
mod gather;
mod governing;
mod header;
pub mod host;
mod incoming;
mod message;
mod modes;
pub mod place;
mod record;
pub mod refusal;
pub mod section;
mod sets;
pub mod stream;
mod work;

use record::{GATHERED, METERS, RECORD};

// A channel's identifier, six bits of a message. A type of its own, so that no service identifier is taken for one.
#[repr(C)]
#[derive(Clone, Copy, Debug, Default, PartialEq, Eq)]
pub struct ChannelId(pub u8);

// A service's identifier.
#[repr(C)]
#[derive(Clone, Copy, Debug, PartialEq, Eq)]
pub struct ServiceId(pub u8);

// What the call of a message answers. A refusal has 0 in all but the number. Numbers, since C has it: exports take no enum, Option or Result.
#[repr(C)]
#[derive(Clone, Copy, Debug, Default, PartialEq, Eq)]
pub struct Reply {
    pub number: u8,
    pub channel: ChannelId,
    pub chunk_type: u8,
    pub timestamp: u32,
    pub space: u16,
    pub points: u32,
    pub lit_points: u32,
    pub levels: u32,
}

// The receiver: three meters, four numbers of the frame that is being gathered, as gather.rt has them, and the octets of 64 channels as
// channels.rt has their places. A C host can hold it, as a value or to lend its three arrays; nothing else is stored.
#[repr(C)]
#[derive(Clone, Copy)]
pub struct Receiver {
    pub meters: [u64; METERS],
    pub gathered: [u32; GATHERED],
    pub channels: [u8; RECORD],
}

// What a call of start or message hands back: the next receiver beside the reply.
#[repr(C)]
#[derive(Clone, Copy)]
pub struct Outcome {
    pub receiver: Receiver,
    pub reply: Reply,
}

// What the call of a set answers (C-14): the place of the first refused message, counted from 0, and its number; or how many there were and
// 0. Numbers, as in Reply.
#[repr(C)]
#[derive(Clone, Copy, Debug, PartialEq, Eq)]
pub struct SetReply {
    pub place: usize,
    pub number: u8,
}

// What that call hands back: the next receiver beside the reply.
#[repr(C)]
#[derive(Clone, Copy)]
pub struct SetOutcome {
    pub receiver: Receiver,
    pub reply: SetReply,
}

// The three meters as they stand: lit microseconds, points, lit points.
#[repr(C)]
#[derive(Clone, Copy, Debug, Default, PartialEq, Eq)]
pub struct Readings {
    pub lit_time: u64,
    pub points: u64,
    pub lit_points: u64,
}
