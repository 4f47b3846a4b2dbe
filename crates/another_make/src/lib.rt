// Cabinets of other makes, for the tests: they show that the interface is not shaped to the three kinds.
#![tactic(auto)]

pub mod counting;
pub mod hesitant;
mod thirds;

pub use counting::Counting;
pub use hesitant::Hesitant;
