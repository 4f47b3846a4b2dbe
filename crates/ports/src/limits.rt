// How much a cabinet's table of ports holds.

// Ports of one cabinet.
pub const MOST_TABLE: usize = 8;

// Frames that wait at a port.
pub const MOST_LINE: usize = 32;
