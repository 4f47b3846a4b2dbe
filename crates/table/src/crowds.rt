// Whether a table crowds a port's line or a regulator.
ghost use Rattle.std.specs.Prelude.{◌≡◌, ◌≤◌};
ghost use Rattle.table.specs.Bounds.{most_stretch};
ghost use Rattle.table.specs.Checks.{crowds_answer, lines_by, regulator_fits, regulators_by, regulators_in};
ghost use Rattle.table.specs.Reckons.{Reckons};

use crate::fault::TableFault;
use crate::loads::Reckoned;
use crate::reckons::reckon;
use crate::routes::{Route, route_of};
use crate::times::PortTimes;
use draft::Table;
use draft::limits::{MOST_PORTS, MOST_REGULATED, MOST_WAITING};
use plan::Plan;

// The first port that may have more frames waiting than its line holds.
fn lines(plan: &Plan, figures: &Reckoned) -> Result<(), TableFault>
    ensures { result ≡ lines_by plan.now.parts figures.now.loads.bits figures.now.delays.slots }
{
    let rates = plan.rates();
    let ports = &plan.parts.ports[..plan.parts.size.ports];
    for (p, port) in ports.iter().enumerate() {
        // by the port's number: the backlog goes by it too
        let held = figures.backlog(plan, p, rates[p]);
        if held / u64::from(port.shortest) > MOST_WAITING {
            return Err(TableFault::Crowded(p));
        }
    }
    Ok(())
}

impl Route<'_> {
    // Whether no more frames can wait before hop k than a regulator holds, by its stretch.
    fn regulator_fits(&self, stretch: u64, k: usize) -> bool
        requires { stretch ≤ most_stretch }
        ensures { result ≡ regulator_fits self.now.flow.now stretch k }
    {
        if !self.flow.mask.has(k) {
            return true;
        }
        let held = u64::from(self.flow.burst) + u64::from(self.flow.rate) * stretch;
        held / u64::from(self.flow.shortest) <= MOST_REGULATED
    }

    // The first of its regulators that may have more frames waiting than it holds.
    fn regulators_in(&self, delays: &PortTimes) -> Result<(), TableFault>
        ensures { result ≡ regulators_in self.now.number self.now.flow.now delays.now.slots }
    {
        if self.flow.mask.bits == 0 {
            return Ok(());
        }
        let mut stretch = 0;
        // by the hop: the stretch goes on from one to the next
        for k in 0..self.hops() {
            if !self.regulator_fits(stretch, k) {
                return Err(TableFault::Crowded(MOST_PORTS + self.place(k)));
            }
            stretch = self.stretch_after(delays, stretch, k);
        }
        Ok(())
    }
}

// The first regulator that may have more frames waiting than it holds.
fn regulators(plan: &Plan, delays: &PortTimes) -> Result<(), TableFault>
    ensures { result ≡ regulators_by plan.now.parts delays.now.slots }
{
    // by the flow's number, which its route bears
    for f in 0..plan.parts.size.flows {
        route_of(plan, f).regulators_in(delays)?;
    }
    Ok(())
}

// The first port, else the first regulator, that is crowded by what was reckoned of the ports.
pub(crate) fn crowds_by(plan: &Plan, figures: &Reckoned) -> Result<(), TableFault>
    ensures { (t : Table) → Reckons plan.now.parts t figures.now → result ≡ crowds_answer plan.now.parts t }
{
    lines(plan, figures)?;
    regulators(plan, &figures.delays)
}

// The first port, else the first regulator, that a table crowds.
pub(crate) fn crowds(plan: &Plan, table: &Table) -> Result<(), TableFault>
    ensures { result ≡ crowds_answer plan.now.parts table.now }
{
    crowds_by(plan, &reckon(plan, table))
}
