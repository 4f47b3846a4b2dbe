// Why a file is no plan file, each with the place where it shows: a byte's number in the file.
ghost use Rattle.std.specs.Prelude.{◌≡◌};
ghost use Rattle.file.specs.Faults.{refusal_of};

use refusal::Refusal;

#[derive(Clone, Copy, Debug, PartialEq, Eq)]
pub enum FileFault {
    // The file ends in a record, or without an end record.
    Cut(usize),
    // A kind of record that does not exist.
    Kind(usize),
    // A kind out of order, or a row that is not of the next flow.
    Order(usize),
    // The end record's number is wrong.
    Count(usize),
    // Bytes after the end record.
    Trailing(usize),
    // A 33rd port, a 65th flow or a 65th row.
    Excess(usize),
}

// Its number, layer and place.
impl From<FileFault> for Refusal {
    ghost from_gives = { λ fault refusal. refusal ≡ refusal_of fault };

    fn from(fault: FileFault) -> Refusal {
        match fault {
            FileFault::Cut(place) => Refusal::new(1, place as u64),
            FileFault::Kind(place) => Refusal::new(2, place as u64),
            FileFault::Order(place) => Refusal::new(3, place as u64),
            FileFault::Count(place) => Refusal::new(4, place as u64),
            FileFault::Trailing(place) => Refusal::new(5, place as u64),
            FileFault::Excess(place) => Refusal::new(6, place as u64),
        }
    }
}
