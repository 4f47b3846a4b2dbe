// The gathering kind of cabinet: it is emptied once a period.
#![tactic(auto)]

pub mod gathering;
pub mod period;

pub use gathering::Gathering;
pub use period::Period;
