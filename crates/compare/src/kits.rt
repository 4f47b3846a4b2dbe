// Kits by chance, from a fixed seed: rings, nets with regulators, and proposed rows about the least ones.
ghost use Rattle.std.specs.Prelude.{◌≤◌};

use crate::second::Second;
use draft::{Draft, Flow, Mask, Path, Port};

// A sequence of numbers that looks like chance.
#[derive(Clone, Copy)]
pub struct Seed {
    state: u64,
}

impl Seed {
    pub fn new(state: u64) -> Seed {
        Seed { state }
    }

    // A number below `most`, which is above 0 and small.
    fn below(&mut self, most: u32) -> u32
        ensures { result ≤ most }
    {
        self.state = self
            .state
            .wrapping_mul(6364136223846793005)
            .wrapping_add(1442695040888963407);
        let high = self.state >> 33;
        (high % u64::from(most.max(1))) as u32
    }

    fn port(&mut self, rate: u32) -> Port {
        let latency = self.below(20);
        let shortest = 512 + self.below(1000);
        let free = latency + shortest / rate.max(1);
        Port {
            rate,
            latency,
            stay: self.below(free + 1),
            shortest,
        }
    }

    // A path of so many hops round so many ports.
    fn path(&mut self, first: u32, hops: u32, ports: u32) -> Path {
        let mut path = Path {
            hops: hops.min(8) as u8,
            ports: [255; 8],
        };
        for (k, port) in path.ports.iter_mut().take(hops as usize).enumerate() {
            *port = ((first.min(1000) + k as u32) % ports.max(1) % 32) as u8;
        }
        path
    }

    // Ports and flows are added apart: they are other fields, filled by other chances.
    fn add_port(&mut self, draft: &mut Draft, rate: u32) {
        let n = draft.parts.size.ports;
        if let Some(place) = draft.parts.ports.get_mut(n) {
            *place = self.port(rate);
            draft.parts.size.ports = n + 1;
        }
    }

    fn add_flow(&mut self, draft: &mut Draft, rate: u32, path: Path, mask: u8) {
        let n = draft.parts.size.flows;
        if let Some(place) = draft.parts.flows.get_mut(n) {
            let shortest = 1512 + self.below(500);
            let longest = shortest + self.below(500);
            let burst = longest + self.below(3000);
            *place = Flow {
                rate,
                burst,
                shortest,
                longest,
                path,
                mask: Mask { bits: mask },
            };
            draft.parts.size.flows = n + 1;
        }
    }

    // Flows round all ports of a ring, up to its full load.
    pub fn ring(&mut self) -> Draft {
        let mut draft = Draft::empty();
        let ports = 2 + self.below(5);
        let rate = 20 + self.below(400);
        for _ in 0..ports {
            self.add_port(&mut draft, rate);
        }
        let each = (rate / ports.max(1)).min(1 + self.below(60));
        // A flow from each port on, by its number.
        for f in 0..ports {
            let path = self.path(f, ports, ports);
            self.add_flow(&mut draft, each, path, 0);
        }
        draft
    }

    // Flows over parts of a ring, with regulators here and there.
    pub fn net(&mut self) -> Draft {
        let mut draft = Draft::empty();
        let ports = 3 + self.below(6);
        let rate = 100 + self.below(900);
        for _ in 0..ports {
            self.add_port(&mut draft, rate);
        }
        let flows = 1 + self.below(8);
        for _ in 0..flows {
            let hops = 1 + self.below(ports.min(8));
            let first = self.below(ports);
            let path = self.path(first, hops, ports);
            let most = 1u32 << hops.min(8);
            let mask = (self.below(most) & 254) as u8;
            let each = 1 + self.below(rate / 4 + 1);
            self.add_flow(&mut draft, each, path, mask);
        }
        draft
    }

    // The same kit with rows proposed: the least ones, or one cell of them a little off.
    pub fn proposal(&mut self, kit: Draft) -> Draft {
        let mut draft = kit;
        let mut second = Second::new(&kit.parts);
        if second.judge(&kit).is_ok() {
            second.lay(&mut draft);
            let f = self.below(kit.parts.size.flows.min(64) as u32).min(63) as usize;
            let k = self.below(u32::from(kit.parts.flows[f].path.hops)).min(7) as usize;
            let off = self.below(3);
            let cell = draft.proposal.table.rows[f].cells[k];
            if cell > 0 && cell < 1_000_000 {
                draft.proposal.table.rows[f].cells[k] = cell + off - 1;
            }
        }
        draft
    }
}
