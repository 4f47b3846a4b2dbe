// What a kind of cabinet adds to the service: what it keeps for each port, and when it hands a frame over.
ghost use Rattle.std.specs.Prelude.{◌≡◌, ℕ, ◌≤◌, Bool, true};
ghost use Rattle.cabinet.specs.Fresh.{fresh_port};
ghost use Rattle.cabinet.specs.Model.{PortModel, cut};
ghost use Rattle.cabinet.specs.Puts.{lined};
ghost use Rattle.cabinet.specs.Takes.{InTime};
ghost use Rattle.cabinet.specs.Wells.{WellPort};
ghost use Rattle.draft.specs.declared.port.Port.{Port};
ghost use Rattle.plan.specs.Checks.{port_fits};
ghost use Rattle.ports.specs.Kinds.{Leads};
ghost use Rattle.service.specs.declared.frame.Frame.{Frame};

use draft::Port;
use service::Frame;

// What a kind keeps for one port, beside the port's figures, finish and line.
pub trait Kind: Copy {
    // A port of these figures may have it.
    ghost fits: { Port → Self → Bool };

    // The first frame of the line is handed over, in this slot, where the least stay is so long.
    ghost ready: { Self → ℕ → ℕ → Frame → Bool };

    // What it is once this frame has been handed over.
    ghost handed: { Self → Frame → Self };

    // What is always true of it and its port.
    ghost keeps: { Self → PortModel → Bool };

    // Whether a port of these figures may have it.
    fn fits(&self, figures: Port) -> bool
        ensures { result ≡ fits figures self.now };

    // Whether the first frame of the line is handed over in this slot. Of any other frame nothing is said.
    fn ready(&self, slot: u64, stay: u32, frame: Frame) -> bool
        ensures { (q : PortModel) → Leads (keeps self.now) q frame → result ≡ ready self.now slot stay frame };

    // Counts the first frame of the line as handed over. Of any other frame nothing is said.
    fn hand(&mut self, frame: Frame)
        ensures { (q : PortModel) → Leads (keeps self.old) q frame → self.new ≡ handed self.old frame };

    // It is kept from the start, when a frame is put, and when one is handed over.
    ghost kept_fresh: { (k : Self) (figures : Port) → port_fits figures ≡ true → fits figures k ≡ true → keeps k (fresh_port figures) ≡ true };

    ghost kept_put: { (k : Self) (q : PortModel) (slot : ℕ) (x : Frame) → WellPort q → slot ≤ 1000000000000 → keeps k q ≡ true → keeps k (lined slot q x) ≡ true };

    ghost kept_handed: { (k : Self) (q : PortModel) (x : Frame) → Leads (keeps k) q x → keeps (handed k x) (cut 1 q) ≡ true };

    // It is ready after the least stay, and no later than the frame is due.
    ghost in_time: { (k : Self) (q : PortModel) (slot : ℕ) (x : Frame) → Leads (keeps k) q x → InTime slot q x (ready k slot q.figures.stay x) };
}
