// All figures of a quote, reckoned once.
use draft::limits::{MOST_FLOWS, MOST_PORTS};

// D and B + r × D of a port.
#[derive(Clone, Copy, Default)]
pub struct PortFigures {
    pub delay: u64,
    pub backlog: u64,
}

// The figures of each port, and the delay of each flow; 0 for what is no port or flow. Arrays, since nothing is allocated.
#[derive(Clone, Copy)]
pub struct Figures {
    pub ports: [PortFigures; MOST_PORTS],
    pub flows: [u64; MOST_FLOWS],
}
