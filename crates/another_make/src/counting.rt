// A cabinet that goes by a counter of its own, which no slot and no figure of a port tells.
use crate::thirds::Thirds;
use ports::{Table, Told};

pub mod making;
pub mod serving;

// At every third question it hands over a frame that has stayed long enough, at any other one that is due.
#[derive(Clone, Copy)]
pub struct Counting {
    table: Table<Told>,
    thirds: Thirds,
}
