// Ports and flows together, checked or not.
ghost use Rattle.std.specs.Prelude.{◌≡◌, ℕ, ◌<◌, length, min, slice_index_or};
ghost use Rattle.draft.specs.Plans.{flow_at, flows_of, no_flow, no_port, port_at, ports_of};

use crate::flow::Flow;
use crate::limits::{MOST_FLOWS, MOST_PORTS};
use crate::port::Port;

// How many ports and flows there are.
#[derive(Clone, Copy, Default, PartialEq, Eq)]
pub struct Size {
    pub ports: usize,
    pub flows: usize,
}

// The ports and flows of a plan, numbered from 0; what stands past the size has no meaning.
// Arrays beside a size, since nothing here is allocated and a plan is copied as it stands.
#[derive(Clone, Copy)]
pub struct Parts {
    pub ports: [Port; MOST_PORTS],
    pub flows: [Flow; MOST_FLOWS],
    pub size: Size,
}

impl Parts {
    // The ports that there are, in order; no more than the 32 that there is room for.
    pub fn ports(&self) -> &[Port]
        ensures value { result.now ≡ ports_of self.now }
        ensures long { length result.now ≡ min self.now.size.ports 32 }
        ensures each { (p : ℕ) → p < length result.now → slice_index_or result.now p no_port ≡ port_at self.now p }
    {
        &self.ports[..self.size.ports.min(MOST_PORTS)]
    }

    // The flows that there are, in order; no more than the 64 that there is room for.
    pub fn flows(&self) -> &[Flow]
        ensures value { result.now ≡ flows_of self.now }
        ensures long { length result.now ≡ min self.now.size.flows 64 }
        ensures each { (f : ℕ) → f < length result.now → slice_index_or result.now f no_flow ≡ flow_at self.now f }
    {
        &self.flows[..self.size.flows.min(MOST_FLOWS)]
    }
}
