// The service of a hesitant cabinet: that of the one inside.
ghost use Rattle.std.specs.Prelude.{◌≡◌};

use super::Hesitant;
use crate::thirds::Thirds;
use cabinet::{Cabinet, CabinetFault};
use draft::Port;
use service::Frame;

impl<C: Cabinet> Hesitant<C> {
    // The cabinet inside keeps its ports, its frames and its slot; it has not been asked yet.
    pub fn new(inside: C) -> Hesitant<C>
        ensures model { C.Cabinet.model result.inside ≡ C.Cabinet.model inside }
        ensures asked { result.thirds.asked ≡ 0 }
    {
        Hesitant {
            inside,
            thirds: Thirds::new(),
        }
    }
}

// The questions are those of the one inside, asked one by one: a trait is not handed on as a whole.
impl<C: Cabinet> Cabinet for Hesitant<C> {
    ghost model = { λ h. C.Cabinet.model h.inside };

    ghost well = { λ x. C.Cabinet.well x.inside };

    fn ports(&self) -> usize {
        self.inside.ports()
    }

    fn slot(&self) -> u64 {
        self.inside.slot()
    }

    fn figures(&self, port: usize) -> Port {
        self.inside.figures(port)
    }

    fn finish(&self, port: usize) -> u64 {
        self.inside.finish(port)
    }

    fn waiting(&self, port: usize) -> usize {
        self.inside.waiting(port)
    }

    fn frame(&self, port: usize, i: usize) -> Option<Frame> {
        self.inside.frame(port, i)
    }

    fn put(&mut self, port: usize, frame: Frame) -> Result<(), CabinetFault> {
        self.inside.put(port, frame)
    }

    fn take(&mut self, port: usize) -> Option<Frame> {
        let third = self.thirds.count();
        if third || self.inside.owes(port) {
            self.inside.take(port)
        } else {
            None
        }
    }

    fn advance(&mut self) -> Result<(), CabinetFault> {
        self.inside.advance()
    }
}
