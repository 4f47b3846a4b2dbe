// How every layer says no: a number, its layer and a place.
#![tactic(auto)]

ghost use Rattle.std.specs.Prelude.{◌≡◌, Some};
ghost use Rattle.refusal.specs.Numbers.{refused, shown};

use std::fmt;

// What a refusal tells the user. The layer is the number's tens: 0 file, 1 plan, 2 table, 3 network, 4 cabinet.
#[derive(Clone, Copy, Debug, PartialEq, Eq)]
pub struct Refusal {
    pub layer: u8,
    pub number: u8,
    pub place: u64,
}

impl Refusal {
    // The refusal of this number at this place.
    pub fn new(number: u8, place: u64) -> Refusal
        ensures { result ≡ refused number place }
    {
        Refusal {
            layer: number / 10,
            number,
            place,
        }
    }
}

// Its layer, number and place, in that order.
impl fmt::Display for Refusal {
    ghost output = { λ refusal. Some (shown refusal) };

    fn fmt<W: fmt::Write>(&self, f: &mut fmt::Formatter<W>) -> fmt::Result {
        write!(f, "{} {} {}", self.layer, self.number, self.place)
    }
}
