// The one interface of all cabinets: questions, put, take and advance, by what they mean.
ghost use Rattle.std.specs.Prelude.{◌≡◌, length};
ghost use Rattle.cabinet.specs.Advances.{advance_after, advance_answer, has_due, owed_port};
ghost use Rattle.cabinet.specs.Fresh.{fresh_model};
ghost use Rattle.cabinet.specs.Model.{Model, frame_in, port_in};
ghost use Rattle.cabinet.specs.Puts.{put_after, put_answer};
ghost use Rattle.cabinet.specs.Takes.{Taken};
ghost use Rattle.cabinet.specs.Wells.{Well};

use crate::fault::CabinetFault;
use draft::Port;
use service::Frame;

// A cabinet that keeps the service. Questions about a port that it lacks answer 0 or none.
pub trait Cabinet {
    // What it means: a slot and, for each port, figures, finish and line.
    ghost model: { Self → Model };

    // How many ports it has.
    fn ports(&self) -> usize
        ensures { result ≡ length (model self.now).ports };

    // The slot it is in.
    fn slot(&self) -> u64
        ensures { result ≡ (model self.now).slot };

    // A port's rate, latency, least stay and shortest frame.
    fn figures(&self, port: usize) -> Port
        ensures { result ≡ (port_in (model self.now) port).figures };

    // A port's finish.
    fn finish(&self, port: usize) -> u64
        ensures { result ≡ (port_in (model self.now) port).finish };

    // How many frames wait at a port.
    fn waiting(&self, port: usize) -> usize
        ensures { result ≡ length (port_in (model self.now) port).line };

    // The i-th frame that waits at a port, counted from the first.
    fn frame(&self, port: usize, i: usize) -> Option<Frame>
        ensures { result ≡ frame_in (port_in (model self.now) port).line i };

    // Whether it is fresh: in slot 0, with no frame waiting and every finish 0.
    fn fresh(&self) -> bool
        ensures { result ≡ fresh_model (model self.now) }
    {
        self.slot() == 0
            && (0..self.ports()).all(|port| self.finish(port) == 0 && self.waiting(port) == 0)
    }

    // Whether a frame that waits at the port is due.
    fn owes(&self, port: usize) -> bool
        ensures { result ≡ has_due (model self.now).slot (port_in (model self.now) port).line }
    {
        let slot = self.slot();
        (0..self.waiting(port)).any(|i| self.frame(port, i).is_some_and(|frame| frame.due <= slot))
    }

    // The lowest port that owes a frame.
    fn owed(&self) -> Option<usize>
        ensures { result ≡ owed_port (model self.now) }
    {
        (0..self.ports()).find(|port| self.owes(*port))
    }

    // Enters a frame at the end of a port's line. Its entry slot and due slot are the cabinet's word.
    fn put(&mut self, port: usize, frame: Frame) -> Result<(), CabinetFault>
        ensures answer { result ≡ put_answer (model self.old) port frame }
        ensures after { model self.new ≡ put_after (model self.old) port frame };

    // Hands over the first frame of a port's line, or says none. Which frames it hands over before they are due is
    // the cabinet's own choice, and the only thing that this interface leaves open.
    fn take(&mut self, port: usize) -> Option<Frame>
        ensures { Taken (model self.old) port result (model self.new) };

    // Goes on to the next slot, unless a waiting frame is due or the slot is the last.
    fn advance(&mut self) -> Result<(), CabinetFault>
        ensures answer { result ≡ advance_answer (model self.old) }
        ensures after { model self.new ≡ advance_after (model self.old) };

    // Every cabinet stays within the limits.
    ghost well: { (x : Self) → Well (model x) };
}
