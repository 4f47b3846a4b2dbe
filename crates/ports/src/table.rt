// The table of a cabinet's ports, and the slot that they are in.
ghost use Rattle.std.specs.Prelude.{◌≡◌, ◌≤◌, length};
ghost use Rattle.ports.specs.Rows.{Each, FilledRow, FitsRow, KeptBy, RisesRow};

use crate::kind::Kind;
use crate::limits::MOST_TABLE;
use crate::row::Row;
use std::alloc::AllocError;

mod adding;
mod changes;
mod questions;
mod serving;
pub mod told;

// A cabinet of one kind: up to eight ports, of which the first `count` rows are in use. An array, since nothing is allocated.
pub struct Table<K: Kind> {
    rows: [Row<K>; MOST_TABLE],
    count: usize,
    slot: u64,
    ghost sized: { length rows ≡ 8 },
    ghost few: { count ≤ 8 },
    ghost soon: { slot ≤ 1000000000000 },
    ghost figures: { Each FitsRow count rows },
    ghost filled: { Each FilledRow count rows },
    ghost rises: { Each RisesRow count rows },
    ghost kept: { Each (KeptBy K.keeps) count rows },
}

// By hand, since it cannot be derived on a generic struct with ghost fields.
impl<K: Kind> Copy for Table<K> {}

impl<K: Kind> Clone for Table<K> {
    ghost is_clone = { λ x y. y ≡ x };

    ghost is_infallible = { λ x. Unit {0} };

    fn clone(&self) -> Result<Table<K>, AllocError> {
        Ok(*self)
    }
}
