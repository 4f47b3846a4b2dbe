// Networks: a plan at work on a cabinet of any make. Frames are offered, cross their flow's ports and are delivered.
#![tactic(auto)]

pub mod fault;
pub mod network;
pub mod source;

pub use fault::NetworkFault;
pub use network::Network;
