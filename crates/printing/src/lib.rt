// The quote sheet as bytes in a place that the caller lends.
#![tactic(auto)]

pub mod fault;
pub mod sheet;
mod text;

pub use fault::SheetFault;
pub use sheet::{print, quote_of};
