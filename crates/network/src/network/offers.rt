// Offers.
ghost use Rattle.std.specs.Prelude.{◌≡◌};
ghost use Rattle.network.specs.Offers.{offer_after, offer_answer, turned_away};
ghost use Rattle.network.specs.Views.{net_of};

use super::Network;
use crate::fault::NetworkFault;
use cabinet::{Cabinet, CabinetFault};
use service::Frame;

// What is said where the cabinet turns the frame away.
fn turned_away(flow: usize, fault: CabinetFault) -> NetworkFault
    ensures { result ≡ turned_away flow fault }
{
    match fault {
        CabinetFault::Full(_) => NetworkFault::Full(flow),
        CabinetFault::Finish(port) => NetworkFault::Finish(port),
        _ => NetworkFault::Closed,
    }
}

impl<C: Cabinet> Network<C> {
    // Offers a frame of this length of a flow. Accepted, it lowers the flow's level and enters the port of hop 0.
    pub fn offer(&mut self, flow: usize, len: u32) -> Result<(), NetworkFault>
        ensures answer { result ≡ offer_answer (net_of C.Cabinet.model self.old) flow len }
        ensures after { net_of C.Cabinet.model self.new ≡ offer_after (net_of C.Cabinet.model self.old) flow len }
    {
        if !self.open {
            return Err(NetworkFault::Closed);
        }
        if flow >= self.plan.parts.size.flows {
            return Err(NetworkFault::NoFlow(flow));
        }
        let w = self.plan.parts.flows[flow];
        if len < w.shortest || len > w.longest {
            return Err(NetworkFault::Length(flow));
        }
        let level = self.sources[flow].level.min(w.burst);
        if level < len {
            return Err(NetworkFault::Level(flow));
        }
        // written out, since each field is the rule's: hop 0, this slot, and what the port makes of it
        let frame = Frame {
            flow: flow as u8,
            hop: 0,
            len,
            origin: self.cabinet.slot(),
            entry: 0,
            due: 0,
        };
        // No `?`, since the fault is told with the flow; with `map_err` and a closure the proof did not close.
        match self.cabinet.put(w.path.ports[0] as usize, frame) {
            Err(fault) => Err(turned_away(flow, fault)),
            Ok(_) => {
                self.sources[flow].level = level - len;
                Ok(())
            }
        }
    }
}
