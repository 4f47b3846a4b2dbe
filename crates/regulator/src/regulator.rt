// The regulator as a row of memory.
use service::Frame;

mod methods;

// How many frames a regulator holds at the most.
pub const PLACES: usize = 16;

// A regulator: its level in bits, which counts as the burst where it is more; and its line, the first `waiting` of the
// frames, where more than 16 are as 16. An array with its count, since a vector of fixed room cannot be copied.
#[derive(Clone, Copy)]
pub struct Regulator {
    pub level: u32,
    pub frames: [Frame; PLACES],
    pub waiting: usize,
}
