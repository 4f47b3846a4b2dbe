// Why a table is refused, or why no least one is found.
ghost use Rattle.std.specs.Prelude.{◌≡◌};
ghost use Rattle.table.specs.Faults.{refusal_of};

use refusal::Refusal;

#[derive(Clone, Copy, Debug, PartialEq, Eq)]
pub enum TableFault {
    // So many rows were given, which is not one a flow.
    Rows(usize),
    // The cell at flow × 8 + hop is below its need.
    Low(usize),
    // The cell at flow × 8 + hop passes the limit, or is unused and not 0.
    Cell(usize),
    // More frames than a port's line holds, by the port; or than a regulator holds, by 32 + flow × 8 + hop.
    Crowded(usize),
    // The need of the cell at flow × 8 + hop passes the limit in a round.
    Climbs(usize),
    // The rounds allowed pass their limits, or were all made and the table still changes.
    Rounds,
    // The scratch cannot hold a table.
    Scratch,
}

// Its number, layer and place.
impl From<TableFault> for Refusal {
    ghost from_gives = { λ fault refusal. refusal ≡ refusal_of fault };

    fn from(fault: TableFault) -> Refusal {
        match fault {
            TableFault::Rows(rows) => Refusal::new(20, rows as u64),
            TableFault::Low(place) => Refusal::new(21, place as u64),
            TableFault::Cell(place) => Refusal::new(22, place as u64),
            TableFault::Crowded(place) => Refusal::new(23, place as u64),
            TableFault::Climbs(place) => Refusal::new(24, place as u64),
            TableFault::Rounds => Refusal::new(25, 0),
            TableFault::Scratch => Refusal::new(26, 0),
        }
    }
}
