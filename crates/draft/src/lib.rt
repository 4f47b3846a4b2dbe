// The plain data of a plan: ports, flows, paths, masks and burst rows, with their limits, before any check.
#![tactic(auto)]

pub mod draft;
pub mod flow;
pub mod limits;
pub mod mask;
pub mod parts;
pub mod path;
pub mod port;
pub mod table;

pub use draft::Draft;
pub use flow::Flow;
pub use mask::Mask;
pub use parts::{Parts, Size};
pub use path::Path;
pub use port::Port;
pub use table::{Proposal, Row, Table};
