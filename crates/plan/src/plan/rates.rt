// What a plan tells of the rates at its ports.
ghost use Rattle.std.specs.Prelude.{◌≡◌, ℕ, ◌<◌, ◌≤◌, slice_index};
ghost use Rattle.draft.specs.Plans.{port_at};
ghost use Rattle.plan.specs.Limits.{rates_through};

use super::Plan;
use crate::rates::{rates, rates_through};
use draft::limits::MOST_PORTS;

impl Plan {
    // The rates through each port, summed once for all of them.
    pub fn rates(&self) -> [u64; MOST_PORTS]
        ensures { (p : ℕ) → p < 32 → slice_index result p ≡ rates_through self.now.parts p }
    {
        rates(&self.parts)
    }

    // The rates through a port, summed: no more than its own.
    pub fn rates_through(&self, port: usize) -> u64
        ensures value { result ≡ rates_through self.now.parts port }
        ensures within { port < self.now.parts.size.ports → result ≤ (port_at self.now.parts port).rate }
    {
        rates_through(&self.parts, port)
    }
}
