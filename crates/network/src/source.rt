// What a network keeps for a flow.

// The flow's level, which counts as the burst where it is more, and the number of its first regulator.
#[derive(Clone, Copy)]
pub struct Source {
    pub(crate) level: u32,
    pub(crate) first: usize,
}
