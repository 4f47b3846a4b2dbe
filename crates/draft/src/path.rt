// The ports that a flow crosses.
ghost use Rattle.std.specs.Prelude.{◌≡◌, ℕ, ◌<◌, length, min, slice_index};
ghost use Rattle.draft.specs.Plans.{crossed};

use crate::limits::MOST_HOPS;

// A path as a file has it: the first `hops` bytes name its ports, in order; the others are 255.
#[derive(Clone, Copy)]
pub struct Path {
    pub hops: u8,
    pub ports: [u8; MOST_HOPS],
}

impl Path {
    // The ports that it names, in order; no more than the eight that there is room for.
    pub fn crossed(&self) -> &[u8]
        ensures value { result.now ≡ crossed self.now }
        ensures long { length result.now ≡ min self.now.hops 8 }
        ensures each { (k : ℕ) → k < length result.now → slice_index result.now k ≡ slice_index self.now.ports k }
    {
        &self.ports[..usize::from(self.hops).min(MOST_HOPS)]
    }
}
