// The ports of a cabinet: a table of up to eight, one row of which changes at a call.
#![tactic(auto)]

mod entry;
pub mod kind;
mod lane;
pub mod limits;
pub mod row;
pub mod table;

pub use kind::Kind;
pub use table::Table;
pub use table::told::Told;
