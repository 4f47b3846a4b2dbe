// A port and its service.

// A port of a switch, by the service it keeps: rate R, latency T, least stay m, shortest frame l.
#[derive(Clone, Copy, Default, PartialEq, Eq)]
pub struct Port {
    pub rate: u32,
    pub latency: u32,
    pub stay: u32,
    pub shortest: u32,
}
