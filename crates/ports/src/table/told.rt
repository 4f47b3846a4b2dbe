// Tables that are told when to hand over, for makes that go by something else than a kind.
ghost use Rattle.std.specs.Prelude.{◌≡◌, ◌+◌, ◌<◌, ◌≤◌, false, refl, true};
ghost use Rattle.cabinet.specs.Model.{frame_in, port_in};
ghost use Rattle.cabinet.specs.Takes.{Taken, Timely, hand_answer, passes, take_after};
ghost use Rattle.ports.specs.Kinds.{early_or_due};
ghost use Rattle.ports.specs.Laws.{stayed_in_time};
ghost use Rattle.ports.specs.Tables.{owns, owns_after, table_model};
ghost use Rattle.service.specs.Entries.{has_stayed};

use super::Table;
use crate::kind::Kind;
use cabinet::Cabinet;
use draft::Port;
use service::Frame;

// The kind that is told: it keeps nothing, and of itself hands each frame over once it has stayed.
#[derive(Clone, Copy, Default)]
pub struct Told;

impl Kind for Told {
    ghost fits = { λ figures k. true };

    ghost ready = { λ k slot stay x. has_stayed stay slot x };

    ghost handed = { λ k x. k };

    ghost keeps = { λ k q. true };

    ghost kept_fresh = { λ k figures a b. refl };

    ghost kept_put = { λ k q slot x w l a. refl };

    ghost kept_handed = { λ k q x l. refl };

    ghost in_time = { λ k q slot x l. stayed_in_time slot q x l.stays };

    fn fits(&self, _figures: Port) -> bool {
        true
    }

    fn ready(&self, slot: u64, stay: u32, frame: Frame) -> bool {
        frame.has_stayed(stay, slot)
    }

    fn hand(&mut self, _frame: Frame) {}
}

// Whether a frame is handed over in this slot: early, where that is told, once it has stayed; and when it is due.
// Here and below, early and ready are a make's plain yes or no.
fn lets_go(early: bool, slot: u64, stay: u32, frame: Frame) -> bool
    requires { frame.entry + stay ≤ frame.due }
    ensures value { result ≡ early_or_due early slot stay frame }
    ensures stayed { result ≡ true → frame.entry + stay ≤ slot }
    ensures later { result ≡ false → slot < frame.due }
{
    (early && frame.has_stayed(stay, slot)) || frame.due <= slot
}

// Only a table of this kind is told: those of other kinds hand over by their kind's word alone.
impl Table<Told> {
    // Hands over the first frame of a port's line where told that it is ready, else says none.
    // That keeps the rule of take where it is told in time.
    pub fn hand_over(&mut self, port: usize, ready: bool) -> Option<Frame>
        ensures answer { result ≡ hand_answer ready (table_model self.old) port }
        ensures after { table_model self.new ≡ take_after (table_model self.old) port result }
        ensures own { owns self.new ≡ owns_after (λ k x. k) port result (owns self.old) }
        ensures kept { Timely (table_model self.old).slot (port_in (table_model self.old) port) ready → Taken (table_model self.old) port result (table_model self.new) }
    {
        self.hand_where(port, ready)
    }

    // Whether the first frame of a port's line is handed over, early where that is told.
    fn early_or_due(&self, port: usize, early: bool) -> bool
        ensures value { result ≡ passes (early_or_due early (table_model self.now).slot (port_in (table_model self.now) port).figures.stay) (frame_in (port_in (table_model self.now) port).line 0) }
        ensures timely { Timely (table_model self.now).slot (port_in (table_model self.now) port) result }
    {
        let stay = self.figures(port).stay;
        match self.first(port) {
            Some(frame) => lets_go(early, self.slot, stay, frame),
            None => false,
        }
    }

    // Hands over the first frame of a port's line when it is due, or where told to be early, once it has stayed.
    // Whatever is told, that keeps the rule of take.
    pub fn hand_over_early(&mut self, port: usize, early: bool) -> Option<Frame>
        ensures taken { Taken (table_model self.old) port result (table_model self.new) }
        ensures answer { result ≡ hand_answer (passes (early_or_due early (table_model self.old).slot (port_in (table_model self.old) port).figures.stay) (frame_in (port_in (table_model self.old) port).line 0)) (table_model self.old) port }
        ensures after { table_model self.new ≡ take_after (table_model self.old) port result }
        ensures own { owns self.new ≡ owns_after (λ k x. k) port result (owns self.old) }
    {
        let ready = self.early_or_due(port, early);
        self.hand_over(port, ready)
    }
}
