// Plan files: a list of records, read one at a time, and written whole.
#![tactic(auto)]

pub mod encoder;
pub mod fault;
mod fields;
mod filling;
mod kind;
pub mod reader;

pub use encoder::encode;
pub use fault::FileFault;
pub use reader::{Progress, Reader, read};
