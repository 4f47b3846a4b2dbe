// Why a cabinet refuses a call, and at which port.
ghost use Rattle.std.specs.Prelude.{◌≡◌};
ghost use Rattle.cabinet.specs.Faults.{refusal_of};

use refusal::Refusal;

#[derive(Clone, Copy, Debug, PartialEq, Eq)]
pub enum CabinetFault {
    // There is no such port, or it may not be added.
    NoPort(usize),
    // The frame is shorter than the port's shortest, or longer than any.
    Length(usize),
    // As many frames wait as the port's line holds.
    Full(usize),
    // The port's finish would pass its limit.
    Finish(usize),
    // A frame that waits at this port is due: it is to be taken first.
    Owed(usize),
    // The slot is the last; told at 32, which is the number of no port.
    LastSlot,
}

// Its number, layer and place.
impl From<CabinetFault> for Refusal {
    ghost from_gives = { λ fault refusal. refusal ≡ refusal_of fault };

    fn from(fault: CabinetFault) -> Refusal {
        match fault {
            CabinetFault::NoPort(port) => Refusal::new(40, port as u64),
            CabinetFault::Length(port) => Refusal::new(41, port as u64),
            CabinetFault::Full(port) => Refusal::new(42, port as u64),
            CabinetFault::Finish(port) => Refusal::new(43, port as u64),
            CabinetFault::Owed(port) => Refusal::new(44, port as u64),
            CabinetFault::LastSlot => Refusal::new(44, 32),
        }
    }
}
