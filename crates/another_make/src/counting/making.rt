// An empty cabinet of this make, and ports added to it.
ghost use Rattle.std.specs.Prelude.{true, ◌≡◌};
ghost use Rattle.ports.specs.Adds.{add_after, add_answer};
ghost use Rattle.ports.specs.Tables.{empty_model};
ghost use Rattle.another_make.specs.Countings.{counting_model};

use super::Counting;
use crate::thirds::Thirds;
use cabinet::CabinetFault;
use draft::Port;
use ports::{Table, Told};

impl Counting {
    // No port, in slot 0, and not asked yet.
    pub fn new() -> Counting
        ensures model { counting_model result ≡ empty_model }
        ensures asked { result.thirds.asked ≡ 0 }
    {
        Counting {
            table: Table::new(),
            thirds: Thirds::new(),
        }
    }

    // One port more, while the cabinet is fresh.
    pub fn add_port(&mut self, figures: Port) -> Result<(), CabinetFault>
        ensures answer { result ≡ add_answer (counting_model self.old) figures true }
        ensures after { counting_model self.new ≡ add_after (counting_model self.old) figures true }
        ensures asked { self.new.thirds ≡ self.old.thirds }
    {
        self.table.add_port(figures, Told)
    }
}
