// The reader: a place in the file, and what the records before it said.
ghost use Rattle.std.specs.Prelude.{◌≤◌, length};

use crate::filling::Filling;

mod steps;
mod whole;

pub use whole::read;

// Whether more records are to come: two cases with names, where a truth value would not say which is which.
#[derive(Clone, Copy, Debug, PartialEq, Eq)]
pub enum Progress {
    More,
    Done,
}

// A plan file, read up to a place.
#[derive(Drop)]
pub struct Reader<'a> {
    bytes: &'a [u8],
    at: usize,
    filling: Filling,
    ghost within: { at ≤ length bytes.now },
}
