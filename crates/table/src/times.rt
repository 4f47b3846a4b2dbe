// Times of ports.
ghost use Rattle.std.specs.Prelude.{◌≡◌, ℕ, ◌<◌, ◌≤◌, replicate, slice_index, slice_set};
ghost use Rattle.table.specs.Bounds.{most_delay};

use draft::limits::MOST_PORTS;

// D or D - m of each port, in slots: none is longer than the fullest table makes it.
// Not one type with the loads of ports: a time is set, a load is added to, and their bounds are other facts.
// A port's number is asked to be below 32, or the plan's, of each call: a type for it was no plainer.
#[derive(Clone, Copy)]
pub struct PortTimes {
    pub slots: [u64; MOST_PORTS],
    ghost few: { (p : ℕ) → p < 32 → slice_index slots p ≤ most_delay },
}

impl PortTimes {
    // No time at any port.
    pub(crate) fn none() -> PortTimes
        ensures { result.slots ≡ replicate 32 0 }
    {
        PortTimes {
            slots: [0; MOST_PORTS],
        }
    }

    // So many slots at port p.
    pub(crate) fn set(&mut self, p: usize, slots: u64)
        requires port { p < 32 }
        requires few { slots ≤ most_delay }
        ensures { self.new.slots ≡ slice_set self.old.slots p slots }
    {
        self.slots[p] = slots;
    }
}
