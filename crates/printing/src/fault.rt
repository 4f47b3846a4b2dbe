// Why no quote is given: the plan or its file is refused, the table is, or the place is too small.
ghost use Rattle.std.specs.Prelude.{◌≡◌};
ghost use Rattle.printing.specs.Faults.{refusal_of};
ghost use Rattle.printing.specs.declared.fault.SheetFault.TheVariants.{Plan, Table};

use plan::PlanFault;
use refusal::Refusal;
use table::TableFault;

#[derive(Clone, Copy, Debug, PartialEq, Eq)]
pub enum SheetFault {
    // The plan is refused, or its file.
    Plan(PlanFault),
    // The proposed table is refused, or no least table is found.
    Table(TableFault),
    // The place for the sheet has under 4,096 bytes.
    Place,
}

impl From<PlanFault> for SheetFault {
    ghost from_gives = { λ e r. r ≡ Plan e };

    fn from(fault: PlanFault) -> SheetFault {
        SheetFault::Plan(fault)
    }
}

impl From<TableFault> for SheetFault {
    ghost from_gives = { λ e r. r ≡ Table e };

    fn from(fault: TableFault) -> SheetFault {
        SheetFault::Table(fault)
    }
}

// Its number, layer and place.
impl From<SheetFault> for Refusal {
    ghost from_gives = { λ fault refusal. refusal ≡ refusal_of fault };

    fn from(fault: SheetFault) -> Refusal {
        match fault {
            SheetFault::Plan(fault) => Refusal::from(fault),
            SheetFault::Table(fault) => Refusal::from(fault),
            SheetFault::Place => Refusal::new(27, 0),
        }
    }
}
