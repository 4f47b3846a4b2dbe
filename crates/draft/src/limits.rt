// The limits of plans and tables, each by the name of what it limits.

pub const MOST_PORTS: usize = 32;

pub const MOST_FLOWS: usize = 64;

pub const MOST_HOPS: usize = 8;

pub const MOST_REGULATORS: u32 = 32;

// A byte of a path past its hops.
pub const UNUSED: u8 = 255;

// Rates of ports and flows, in bits per slot; a slot is one microsecond.
pub const MOST_RATE: u32 = 10_000;

// In slots.
pub const MOST_LATENCY: u32 = 100_000;

// Frames and bursts, in bits.
pub const LEAST_FRAME: u32 = 512;

pub const MOST_FRAME: u32 = 100_000;

pub const MOST_BURST: u32 = 100_000_000;

// A cell of a burst table, in bits.
pub const MOST_CELL: u32 = 1_000_000_000;

// Frames in a port's line, and in a regulator.
pub const MOST_WAITING: u64 = 32;

pub const MOST_REGULATED: u64 = 16;

// Rounds towards the least table, and the numbers of scratch that a table fills.
pub const MOST_ROUNDS: u32 = 100_000;

pub const TABLE_CELLS: usize = 512;
