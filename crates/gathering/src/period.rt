// The gathering kind: a period, and a frame is handed over in the slots divisible by it, once it has stayed.
ghost use Rattle.std.specs.Prelude.{◌≡◌};
ghost use Rattle.gathering.specs.Periods.{gathered, gathered_in_time, period_fits};

use draft::Port;
use ports::Kind;
use rounding::up;
use service::Frame;

// How many slots apart a port is emptied.
#[derive(Clone, Copy)]
pub struct Period {
    slots: u32,
}

impl Period {
    // So many slots apart. No port may have a period of none.
    pub fn new(slots: u32) -> Period
        ensures { result.slots ≡ slots }
    {
        Period { slots }
    }
}

// In every slot.
impl Default for Period {
    ghost is_default = { λ period. period.slots ≡ 1 };

    fn default() -> Period {
        Period { slots: 1 }
    }
}

impl Kind for Period {
    ghost fits = { λ figures k. period_fits figures k.slots };

    ghost ready = { λ k slot stay x. gathered slot k.slots stay x };

    ghost handed = { λ k x. k };

    ghost keeps = { λ k q. period_fits q.figures k.slots };

    ghost kept_fresh = { λ k figures a b. b };

    ghost kept_put = { λ k q slot x w l a. a };

    ghost kept_handed = { λ k q x l. l.kept };

    ghost in_time = { λ k q slot x l. gathered_in_time slot k.slots q x l.stays };

    // A slot divisible by the period falls between the least stay and the due slot of every frame.
    fn fits(&self, figures: Port) -> bool {
        let latest = u64::from(figures.latency)
            + up(u64::from(figures.shortest), u64::from(figures.rate));
        self.slots >= 1 && u64::from(figures.stay) + u64::from(self.slots) <= latest + 1
    }

    fn ready(&self, slot: u64, stay: u32, frame: Frame) -> bool {
        (slot.is_multiple_of(u64::from(self.slots)) && frame.has_stayed(stay, slot))
            || frame.due <= slot
    }

    fn hand(&mut self, _frame: Frame) {}
}
