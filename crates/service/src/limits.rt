// The limits of slots and ports at work.

// Slots are counted from 0; in the last one nothing advances.
pub const LAST_SLOT: u64 = 1_000_000_000_000;

// What a port has been given, counted in bits from slot 0 on.
pub const MOST_FINISH: u64 = 20_000_000_000_000_000;
