// Regulators: a token bucket that holds frames back until its level covers them.
#![tactic(auto)]

pub mod regulator;

pub use regulator::Regulator;
