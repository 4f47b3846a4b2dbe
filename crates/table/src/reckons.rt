// The loads, delays and gaps of all ports, reckoned once.
ghost use Rattle.std.specs.Prelude.{◌≡◌, ℕ, ◌+◌, ◌*◌, ◌<◌, ◌≤◌, slice_index};
ghost use Rattle.plan.specs.Limits.{rates_through};
ghost use Rattle.table.specs.Loads.{backlog, delay, delays, gaps};
ghost use Rattle.table.specs.Reckons.{Loaded, Reckons};

use crate::loads::{PortLoads, Reckoned, loads};
use crate::times::PortTimes;
use draft::Table;
use plan::Plan;

impl Reckoned {
    // B + r × D of port p, by its r.
    pub(crate) fn backlog(&self, plan: &Plan, p: usize, rates: u64) -> u64
        requires port { p < plan.now.parts.size.ports }
        requires rates { rates ≡ rates_through plan.now.parts p }
        ensures { result ≡ slice_index self.now.loads.bits p + rates_through plan.now.parts p * slice_index self.now.delays.slots p }
    {
        self.loads.backlog(plan, p, rates, self.delays.slots[p])
    }
}

// B, D and D - m of each port; D and D - m are 0 past the plan's ports.
pub(crate) fn reckon(plan: &Plan, table: &Table) -> Reckoned
    ensures { Reckons plan.now.parts table.now result }
{
    let loads = loads(plan, table);
    let mut delays = PortTimes::none();
    let mut gaps = PortTimes::none();
    let ports = &plan.parts.ports[..plan.parts.size.ports];
    for (p, port) in ports.iter().enumerate() {
        let delay = loads.delay(plan, p);
        delays.set(p, delay);
        gaps.set(p, delay.saturating_sub(u64::from(port.stay)));
    }
    Reckoned {
        loads,
        delays,
        gaps,
    }
}

// D - m of each port by its B, written over the gaps of the table before: a round needs no more, and is what takes time.
pub(crate) fn set_gaps(plan: &Plan, loads: &PortLoads, found: &mut PortTimes)
    requires { (p : ℕ) → plan.now.parts.size.ports ≤ p → p < 32 → slice_index found.old.slots p ≡ 0 }
    ensures { (t : Table) → Loaded plan.now.parts t loads.now.bits → found.new.slots ≡ gaps plan.now.parts t }
{
    let ports = &plan.parts.ports[..plan.parts.size.ports];
    for (p, port) in ports.iter().enumerate() {
        let delay = loads.delay(plan, p);
        found.set(p, delay.saturating_sub(u64::from(port.stay)));
    }
}

// D of each port by a table, and 0 past the plan's ports: a flow's delay needs no more.
pub(crate) fn delays(plan: &Plan, table: &Table) -> PortTimes
    ensures { result.slots ≡ delays plan.now.parts table.now }
{
    let loads = loads(plan, table);
    let mut found = PortTimes::none();
    // by the port's number, as its load
    for p in 0..plan.parts.size.ports {
        found.set(p, loads.delay(plan, p));
    }
    found
}

// D of port p by a table, and 0 for what is no port.
pub(crate) fn delay(plan: &Plan, table: &Table, p: usize) -> u64
    ensures { result ≡ delay plan.now.parts table.now p }
{
    if p >= plan.parts.size.ports {
        return 0;
    }
    loads(plan, table).delay(plan, p)
}

// B + r × D of port p by a table, and 0 for what is no port.
pub(crate) fn backlog(plan: &Plan, table: &Table, p: usize) -> u64
    ensures { result ≡ backlog plan.now.parts table.now p }
{
    if p >= plan.parts.size.ports {
        return 0;
    }
    let loads = loads(plan, table);
    let delay = loads.delay(plan, p);
    loads.backlog(plan, p, plan.rates_through(p), delay)
}
