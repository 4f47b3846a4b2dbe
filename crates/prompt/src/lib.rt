// The prompt kind of cabinet: it hands over each frame once its own, faster line has sent it.
#![tactic(auto)]

pub mod prompt;
pub mod wire;

pub use prompt::Prompt;
pub use wire::Wire;
