// Cabinets by their meaning: what every make of switch tells and does, and what follows from that alone.
#![tactic(auto)]

pub mod cabinet;
pub mod draining;
pub mod fault;

pub use cabinet::Cabinet;
pub use draining::drain;
pub use fault::CabinetFault;
