// Plans that keep the limits, and what is wrong with those that do not.
#![tactic(auto)]

pub mod fault;
mod flows;
mod path;
pub mod plan;
pub mod planned;
mod ports;
mod rates;

pub use fault::PlanFault;
pub use plan::Plan;
pub use planned::Planned;
pub use ports::port_fits;
