// The tag layer: what the tags of a configuration say, and what a chunk's octets mean by them. The receiver knows this layer by
// its promises alone. Tags are read once, when a channel is routed; what they say is a Layout or a Dimmer, and kept.rt has the form in
// which a layer above keeps either.
#![tactic(auto)]

pub mod dictionary;
pub mod dimming;
pub mod host;
pub mod kept;
pub mod levels;
pub mod limits;
pub mod refusal;
pub mod rows;
mod tag;
mod walk;

use limits::{COLOUR_LIMIT, OCTET_LIMIT, SUBSET_LIMIT};

// These four structs are C's: exports take no enum, Option or Result, so numbers stand for refusals, 0 for none, and arrays have their lengths
// beside them.

// What a sample's octets are for, as a dictionary says: a role for each of `width` octets, the wavelengths of `colours` colours (0
// where a prefix gives it) and the space modifier's word (0 if none). specs/Layout.antt says how it is read.
#[repr(C)]
#[derive(Clone, Copy)]
pub struct Layout {
    pub roles: [u8; OCTET_LIMIT],
    pub waves: [u16; COLOUR_LIMIT],
    pub space: u16,
    pub width: u8,
    pub colours: u8,
}

// Where levels go, as dimmer tags say: the base of a 42 (0 without one) and `count` subsets of 43s, each a base and a count.
#[repr(C)]
#[derive(Clone, Copy)]
pub struct Dimmer {
    pub bases: [u16; SUBSET_LIMIT],
    pub counts: [u8; SUBSET_LIMIT],
    pub base: u16,
    pub count: u8,
}

// A dictionary checked: the refusal, 5, 6 or 8 to 12, with an empty layout, or 0 with the layout.
#[repr(C)]
#[derive(Clone, Copy)]
pub struct Checked {
    pub number: u8,
    pub layout: Layout,
}

// Dimmer tags checked: the refusal, 13 or 14, with an empty mapping, or 0 with the mapping.
#[repr(C)]
#[derive(Clone, Copy)]
pub struct Mapped {
    pub number: u8,
    pub dimmer: Dimmer,
}
