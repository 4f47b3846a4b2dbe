// What a quote tells of its ports and flows.
ghost use Rattle.std.specs.Prelude.{◌≡◌};
ghost use Rattle.table.specs.Loads.{backlog, delay};
ghost use Rattle.table.specs.Paths.{flow_delay};

use super::Quote;
use crate::reckons::{backlog, delay, delays};
use crate::routes::route_of;

impl Quote {
    // D of a port, and 0 for what is no port.
    pub fn port_delay(&self, p: usize) -> u64
        ensures value { result ≡ delay self.now.plan.parts self.now.table p }
    {
        delay(&self.plan, &self.table, p)
    }

    // B + r × D of a port, and 0 for what is no port.
    pub fn port_backlog(&self, p: usize) -> u64
        ensures value { result ≡ backlog self.now.plan.parts self.now.table p }
    {
        backlog(&self.plan, &self.table, p)
    }

    // The sum of D along a flow's path plus hops - 1, and 0 for what is no flow.
    pub fn flow_delay(&self, f: usize) -> u64
        ensures value { result ≡ flow_delay self.now.plan.parts self.now.table f }
    {
        if f >= self.plan.parts.size.flows {
            return 0;
        }
        route_of(&self.plan, f).delay(&delays(&self.plan, &self.table))
    }
}
