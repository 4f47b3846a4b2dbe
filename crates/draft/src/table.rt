// Burst tables, and what a file proposes of one.
ghost use Rattle.std.specs.Prelude.{◌≡◌};
ghost use Rattle.draft.specs.Plans.{no_table};

use crate::limits::{MOST_FLOWS, MOST_HOPS};

// The bursts of one flow, hop by hop; a cell past the path is 0.
#[derive(Clone, Copy, Default, PartialEq, Eq)]
pub struct Row {
    pub cells: [u32; MOST_HOPS],
}

// A burst table: one row a flow, eight cells a row; rows past the flows are 0. An array, passed by value.
#[derive(Clone, Copy)]
pub struct Table {
    pub rows: [Row; MOST_FLOWS],
}

// A table that a file proposes, of which so many rows were given; the table has all its rows, whatever was given.
#[derive(Clone, Copy)]
pub struct Proposal {
    pub table: Table,
    pub rows: usize,
}

impl Table {
    // Every cell 0.
    pub fn empty() -> Table
        ensures { result ≡ no_table }
    {
        Table {
            rows: [Row::default(); MOST_FLOWS],
        }
    }
}
