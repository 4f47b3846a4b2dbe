// Which hops of a flow have a regulator before them.
ghost use Rattle.std.specs.Prelude.{◌≡◌, ◌<◌, ◌≤◌, min};
ghost use Rattle.draft.specs.Masks.{bit, bits_below, regulated, regulators};

use crate::limits::MOST_HOPS;

// A regulator mask: bit k, from the lowest, puts a regulator before hop k.
#[derive(Clone, Copy, Default, PartialEq, Eq)]
pub struct Mask {
    pub bits: u8,
}

// A hop below 8 is asked for, and given by both callers: a type for such a number was no plainer.
fn bit_of(bits: u8, hop: usize) -> u8
    requires { hop < 8 }
    ensures value { result ≡ bit bits hop }
    ensures small { result ≤ 1 }
{
    bits >> hop & 1
}

impl Mask {
    // Whether a regulator stands before this hop.
    pub fn has(&self, hop: usize) -> bool
        ensures { result ≡ regulated self.now hop }
    {
        if hop >= MOST_HOPS {
            return false;
        }
        bit_of(self.bits, hop) == 1
    }

    // How many regulators it puts.
    pub fn count(&self) -> u32
        ensures value { result ≡ regulators self.now }
        ensures few { result ≤ 8 }
    {
        self.before(MOST_HOPS)
    }

    // How many regulators it puts before the hops below this one.
    pub fn before(&self, end: usize) -> u32
        ensures value { result ≡ bits_below self.now.bits (min end 8) }
        ensures few { result ≤ 8 }
    {
        // A loop, since the mask is counted by shifts; `filter(..).count()` was tried, and its proof did not close.
        let mut n = 0;
        for hop in 0..end.min(MOST_HOPS) {
            n += u32::from(bit_of(self.bits, hop));
        }
        n
    }
}
