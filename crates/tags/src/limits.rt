// The limits that document 01 sets, as specs/Limits.antt names them. The arrays of a Layout are as long as octets and colours go, those
// of a Dimmer as subsets do.

// Octets of a sample, as the crate samples has them.
pub const OCTET_LIMIT: usize = samples::limits::OCTET_LIMIT;

// Colours of a dictionary, likewise.
pub const COLOUR_LIMIT: usize = samples::limits::COLOUR_LIMIT;

// Numbers of a row, likewise.
pub const ROW: usize = samples::limits::ROW;

// Subsets (43) of dimmer tags.
pub const SUBSET_LIMIT: usize = 32;

// The last level of a universe, and what follows it.
pub const LAST_LEVEL: u16 = 512;

pub const LEVEL_END: usize = 513;

// The base that drops its octets.
pub const DROP_BASE: u16 = 0xFFFF;

// Places of the lent levels: both modes.
pub const PLACE_COUNT: usize = 1024;

// Tag octets that a C host may hand over: 255 configuration words.
pub const TAG_OCTET_LIMIT: usize = 1020;
