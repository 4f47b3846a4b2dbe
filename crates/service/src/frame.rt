// A frame on its way through a network.
ghost use Rattle.std.specs.Prelude.{◌≡◌};
ghost use Rattle.service.specs.Entries.{has_stayed};

// Its flow, the hop of the flow's path that it is at, and its length in bits; the slot in which the network accepted it,
// the slot in which it entered its port, and the slot by whose end that port hands it over.
#[derive(Clone, Copy, Default, PartialEq, Eq)]
pub struct Frame {
    pub flow: u8,
    pub hop: u8,
    pub len: u32,
    pub origin: u64,
    pub entry: u64,
    pub due: u64,
}

impl Frame {
    // Whether it has stayed at its port, in this slot, for as many slots as the port asks.
    pub fn has_stayed(&self, stay: u32, slot: u64) -> bool
        ensures { result ≡ has_stayed stay slot self.now }
    {
        let stay = u64::from(stay);
        stay <= slot && self.entry <= slot - stay
    }
}
