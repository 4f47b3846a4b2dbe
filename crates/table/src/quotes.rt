// The quote as a type: whatever quote there is holds an accepted table.
ghost use Rattle.std.specs.Prelude.{◌≡◌, true};
ghost use Rattle.table.specs.Checks.{accepts};

use draft::Table;
use plan::Plan;

pub mod all;
pub mod figures;
pub mod questions;

// A plan with an accepted table, and the rounds that made it: 0 where it was proposed.
#[derive(Clone, Copy)]
pub struct Quote {
    pub plan: Plan,
    pub table: Table,
    pub rounds: u32,
    ghost accepted: { accepts plan.parts table ≡ true },
}
