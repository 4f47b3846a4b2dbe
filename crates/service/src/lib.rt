// Frames, and what the service of a port makes of one that enters it.
#![tactic(auto)]

pub mod frame;
pub mod limits;

pub use frame::Frame;
