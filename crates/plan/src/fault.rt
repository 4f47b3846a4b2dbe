// Why a plan is refused: its file is, or a port or a flow, by its number, passes a limit.
ghost use Rattle.std.specs.Prelude.{◌≡◌};
ghost use Rattle.plan.specs.Faults.{refusal_of};
ghost use Rattle.plan.specs.declared.fault.PlanFault.TheVariants.{File};

use file::FileFault;
use refusal::Refusal;

#[derive(Clone, Copy, Debug, PartialEq, Eq)]
pub enum PlanFault {
    // The file is no plan file.
    File(FileFault),
    // A port's rate, latency or shortest frame.
    Figures(usize),
    // A port's least stay.
    Stay(usize),
    // A flow's rate, frames or burst.
    Bucket(usize),
    // A flow's hops or the bytes of its path.
    Path(usize),
    // A flow's shortest frame is below that of a port it crosses.
    Frames(usize),
    // A flow's mask has a bit that may not be set, or puts the 33rd regulator.
    Mask(usize),
    // The rates through a port pass its own.
    Rates(usize),
}

impl From<FileFault> for PlanFault {
    ghost from_gives = { λ e r. r ≡ File e };

    fn from(fault: FileFault) -> PlanFault {
        PlanFault::File(fault)
    }
}

// Its number, layer and place.
impl From<PlanFault> for Refusal {
    ghost from_gives = { λ fault refusal. refusal ≡ refusal_of fault };

    fn from(fault: PlanFault) -> Refusal {
        match fault {
            PlanFault::File(fault) => Refusal::from(fault),
            PlanFault::Figures(port) => Refusal::new(10, port as u64),
            PlanFault::Stay(port) => Refusal::new(11, port as u64),
            PlanFault::Bucket(flow) => Refusal::new(12, flow as u64),
            PlanFault::Path(flow) => Refusal::new(13, flow as u64),
            PlanFault::Frames(flow) => Refusal::new(14, flow as u64),
            PlanFault::Mask(flow) => Refusal::new(15, flow as u64),
            PlanFault::Rates(port) => Refusal::new(16, port as u64),
        }
    }
}
