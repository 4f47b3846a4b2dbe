// The latest kind of cabinet: it hands over each frame in its due slot.
#![tactic(auto)]

pub mod due;
pub mod latest;

pub use due::Due;
pub use latest::Latest;
