// The service of the counting make.
ghost use Rattle.another_make.specs.Countings.{counting_model};
ghost use Rattle.ports.specs.Laws.{table_well};

use super::Counting;
use cabinet::{Cabinet, CabinetFault};
use draft::Port;
use service::Frame;

// The questions are those of its table, asked one by one: a trait is not handed on as a whole.
impl Cabinet for Counting {
    ghost model = { counting_model };

    ghost well = { λ x. table_well x.table };

    fn ports(&self) -> usize {
        self.table.ports()
    }

    fn slot(&self) -> u64 {
        self.table.slot()
    }

    fn figures(&self, port: usize) -> Port {
        self.table.figures(port)
    }

    fn finish(&self, port: usize) -> u64 {
        self.table.finish(port)
    }

    fn waiting(&self, port: usize) -> usize {
        self.table.waiting(port)
    }

    fn frame(&self, port: usize, i: usize) -> Option<Frame> {
        self.table.frame(port, i)
    }

    fn fresh(&self) -> bool {
        self.table.fresh()
    }

    fn owes(&self, port: usize) -> bool {
        self.table.owes(port)
    }

    fn owed(&self) -> Option<usize> {
        self.table.owed()
    }

    fn put(&mut self, port: usize, frame: Frame) -> Result<(), CabinetFault> {
        self.table.put(port, frame)
    }

    fn take(&mut self, port: usize) -> Option<Frame> {
        let third = self.thirds.count();
        self.table.hand_over_early(port, third)
    }

    fn advance(&mut self) -> Result<(), CabinetFault> {
        self.table.advance()
    }
}
