// What a quote tells of all its ports and flows at once.
ghost use Rattle.std.specs.Prelude.{◌≡◌, ℕ, ◌<◌, slice_index, slice_index_or};
ghost use Rattle.table.specs.Figures.{Figured};
ghost use Rattle.table.specs.Loads.{backlog, delay};
ghost use Rattle.table.specs.Paths.{flow_delay};
ghost use Rattle.table.specs.Reckons.{Reckons};

use super::Quote;
use super::figures::{Figures, PortFigures};
use crate::loads::Reckoned;
use crate::reckons::reckon;
use crate::routes::route_of;
use draft::Table;
use draft::limits::{MOST_FLOWS, MOST_PORTS};
use plan::Plan;

// D and B + r × D of each port, and 0 past the plan's ports.
fn port_figures(plan: &Plan, reckoned: &Reckoned) -> [PortFigures; MOST_PORTS]
    ensures { (t : Table) → Reckons plan.now.parts t reckoned.now → (p : ℕ) → p < 32 → slice_index_or result p (record { delay = 0; backlog = 0 }) ≡ record { delay = delay plan.now.parts t p; backlog = backlog plan.now.parts t p } }
{
    let rates = plan.rates();
    let mut found = [PortFigures::default(); MOST_PORTS];
    let used = &mut found[..plan.parts.size.ports];
    // by the port's number, as what was reckoned of it
    for (p, figures) in used.iter_mut().enumerate() {
        *figures = PortFigures {
            delay: reckoned.delays.slots[p],
            backlog: reckoned.backlog(plan, p, rates[p]),
        };
    }
    found
}

// The delay of each flow, and 0 past the plan's flows.
fn flow_delays(plan: &Plan, reckoned: &Reckoned) -> [u64; MOST_FLOWS]
    ensures { (t : Table) → Reckons plan.now.parts t reckoned.now → (f : ℕ) → f < 64 → slice_index result f ≡ flow_delay plan.now.parts t f }
{
    let mut found = [0; MOST_FLOWS];
    let used = &mut found[..plan.parts.size.flows];
    for (f, delay) in used.iter_mut().enumerate() {
        *delay = route_of(plan, f).delay(&reckoned.delays);
    }
    found
}

impl Quote {
    // Every delay and backlog, of each port and each flow.
    pub fn figures(&self) -> Figures
        ensures { Figured self.now.plan.parts self.now.table result }
    {
        let reckoned = reckon(&self.plan, &self.table);
        Figures {
            ports: port_figures(&self.plan, &reckoned),
            flows: flow_delays(&self.plan, &reckoned),
        }
    }
}
