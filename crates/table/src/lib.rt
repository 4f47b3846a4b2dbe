// Burst tables: the check of a proposed one, the search for the least, and the quote that either gives.
#![tactic(auto)]

pub mod bench;
pub mod check;
pub mod crowds;
pub mod fault;
pub mod loads;
pub mod paths;
pub mod quotes;
pub mod reckons;
pub mod rounds;
mod routes;
pub mod search;
pub mod times;

pub use check::quote;
pub use fault::TableFault;
pub use quotes::Quote;
pub use search::least;
