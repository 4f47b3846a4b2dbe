// The latest kind: nothing of its own, and a frame is handed over when it is due.
ghost use Rattle.std.specs.Prelude.{refl, true};
ghost use Rattle.latest.specs.Latests.{latest_in_time, latest_ready};

use draft::Port;
use ports::Kind;
use service::Frame;

// What the latest kind keeps for a port: nothing.
#[derive(Clone, Copy, Default)]
pub struct Due;

impl Kind for Due {
    ghost fits = { λ figures k. true };

    ghost ready = { λ k slot stay x. latest_ready slot x };

    ghost handed = { λ k x. k };

    ghost keeps = { λ k q. true };

    ghost kept_fresh = { λ k figures a b. refl };

    ghost kept_put = { λ k q slot x w l a. refl };

    ghost kept_handed = { λ k q x l. refl };

    ghost in_time = { λ k q slot x l. latest_in_time slot q x l.stays };

    fn fits(&self, _figures: Port) -> bool {
        true
    }

    fn ready(&self, slot: u64, _stay: u32, frame: Frame) -> bool {
        frame.due <= slot
    }

    fn hand(&mut self, _frame: Frame) {}
}
