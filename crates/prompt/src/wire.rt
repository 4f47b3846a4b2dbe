// The prompt kind: the line out of a port, how fast it really is and how far it has come.
ghost use Rattle.std.specs.Prelude.{◌≡◌, ◌≤◌};
ghost use Rattle.cabinet.specs.Model.{PortModel};
ghost use Rattle.ports.specs.Kinds.{Leads};
ghost use Rattle.prompt.specs.Wires.{PutsCounted, fresh_wire, kept, own_after, passed, sent_on, suits};
ghost use Rattle.prompt.specs.WireLaws.{wire_handed, wire_in_time, wire_put, wire_starts};

use draft::Port;
use draft::limits::MOST_RATE;
use ports::Kind;
use rounding::up;
use service::Frame;

// Line speed C, latency U, and the port's own finish at the last frame handed over.
#[derive(Clone, Copy, Default)]
pub struct Wire {
    speed: u32,
    latency: u32,
    sent: u64,
}

impl Wire {
    // A line of this speed and latency, which has sent nothing yet.
    pub fn new(speed: u32, latency: u32) -> Wire
        ensures { result ≡ fresh_wire speed latency }
    {
        Wire {
            speed,
            latency,
            sent: 0,
        }
    }

    // The own finish with this frame, which is the next: the greater of itself and entry × C, plus the length.
    // Where the port keeps what it is to, nothing wraps.
    fn own_after(&self, frame: Frame) -> u64
        ensures { own_after self.now.speed self.now.sent frame ≤ 30000000000000000 → result ≡ own_after self.now.speed self.now.sent frame }
    {
        self.sent
            .max(frame.entry.wrapping_mul(u64::from(self.speed)))
            .wrapping_add(u64::from(frame.len))
    }
}

impl Kind for Wire {
    ghost fits = { λ figures w. suits figures w };

    ghost ready = { λ w slot stay x. passed w slot stay x };

    ghost handed = { λ w x. sent_on w x };

    ghost keeps = { λ w q. kept w q };

    ghost kept_fresh = { wire_starts };

    ghost kept_put = { wire_put };

    ghost kept_handed = { λ w q x l. wire_handed w q x l };

    ghost in_time = { λ w q slot x l. wire_in_time w q slot x l };

    // The line is no slower than the port, and no later.
    fn fits(&self, figures: Port) -> bool {
        figures.rate <= self.speed
            && self.speed <= MOST_RATE
            && self.latency <= figures.latency
            && self.sent == 0
    }

    // The line has sent the frame, and it has stayed.
    fn ready(&self, slot: u64, stay: u32, frame: Frame) -> bool {
        let done = up(self.own_after(frame), u64::from(self.speed)).wrapping_add(u64::from(
            self.latency,
        ));
        done <= slot && frame.has_stayed(stay, slot)
    }

    fn hand(&mut self, frame: Frame) {
        self.sent = self.own_after(frame);
    }
}

// At every put the own finish of a prompt port becomes the greater of itself and slot × C, plus the length; refused, it stays.
pub fn puts_counted()
    ensures { PutsCounted }
{}
