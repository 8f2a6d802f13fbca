// The limits that document 01 sets to a sample and to its row, as specs/Limits.antt names them.

// Octets of a sample.
pub const OCTET_LIMIT: usize = 32;

// Colours of a dictionary.
pub const COLOUR_LIMIT: usize = 8;

// Numbers of a row, one in each slot.
pub const ROW: usize = 24;
