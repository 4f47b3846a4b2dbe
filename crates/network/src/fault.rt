// Why a network refuses a call.
ghost use Rattle.std.specs.Prelude.{◌≡◌};
ghost use Rattle.network.specs.Faults.{refusal_of};

use refusal::Refusal;

#[derive(Clone, Copy, Debug, PartialEq, Eq)]
pub enum NetworkFault {
    // There is no flow of this number.
    NoFlow(usize),
    // The network is closed: its cabinet was not fresh, or is not what the plan says.
    Closed,
    // The length is outside this flow's frames.
    Length(usize),
    // This flow's level is below the length.
    Level(usize),
    // The slot is the last.
    LastSlot,
    // The tray has fewer places than frames wait at the ports.
    Tray,
    // The line of this flow's first port is full.
    Full(usize),
    // The finish of this port would pass its limit.
    Finish(usize),
}

// Its number, layer and place.
impl From<NetworkFault> for Refusal {
    ghost from_gives = { λ fault refusal. refusal ≡ refusal_of fault };

    fn from(fault: NetworkFault) -> Refusal {
        match fault {
            NetworkFault::NoFlow(flow) => Refusal::new(30, flow as u64),
            NetworkFault::Closed => Refusal::new(31, 0),
            NetworkFault::Length(flow) => Refusal::new(32, flow as u64),
            NetworkFault::Level(flow) => Refusal::new(33, flow as u64),
            NetworkFault::LastSlot => Refusal::new(34, 0),
            NetworkFault::Tray => Refusal::new(35, 0),
            NetworkFault::Full(flow) => Refusal::new(36, flow as u64),
            NetworkFault::Finish(port) => Refusal::new(43, port as u64),
        }
    }
}
