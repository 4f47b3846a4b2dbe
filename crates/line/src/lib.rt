// A FIFO queue over memory that the caller lends; nothing in it knows of networks.
#![tactic(auto)]

mod queue;

pub use queue::Queue;

#[cfg(test)]
mod tests;
