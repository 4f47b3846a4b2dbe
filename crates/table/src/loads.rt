// Loads of ports by a table, their delays and backlogs by their loads, and what is reckoned of all.
ghost use Rattle.std.specs.Prelude.{◌≡◌, ℕ, ◌+◌, ◌*◌, ◌<◌, ◌≤◌, if◌then◌else◌, ◌==◌, slice_index};
ghost use Rattle.draft.specs.Plans.{hops, port_at};
ghost use Rattle.plan.specs.Limits.{rates_through};
ghost use Rattle.table.specs.Bounds.{most_delay, most_load, most_row};
ghost use Rattle.table.specs.Loads.{delay_by, load, load_in};

use crate::routes::{Route, route_of};
use crate::times::PortTimes;
use draft::limits::MOST_PORTS;
use draft::{Row, Table};
use plan::Plan;
use rounding::up;

// B of each port, in bits: none is more than the fullest table makes it. For why a port's number is asked to be in bounds,
// and why times are a type of their own, see `PortTimes`.
#[derive(Clone, Copy)]
pub struct PortLoads {
    pub bits: [u64; MOST_PORTS],
    ghost few: { (p : ℕ) → p < 32 → slice_index bits p ≤ most_load },
}

impl PortLoads {
    // No load at any port.
    pub(crate) fn none() -> PortLoads
        ensures { (p : ℕ) → p < 32 → slice_index result.bits p ≡ 0 }
    {
        PortLoads {
            bits: [0; MOST_PORTS],
        }
    }

    // So many bits more at port p.
    pub(crate) fn add(&mut self, p: usize, bits: u64)
        requires port { p < 32 }
        requires room { slice_index self.old.bits p + bits ≤ most_load }
        ensures { (q : ℕ) → q < 32 → slice_index self.new.bits q ≡ slice_index self.old.bits q + (if p == q then bits else 0) }
    {
        self.bits[p] += bits;
    }

    // The cells of one flow more, each at its port.
    fn add_row(&mut self, route: &Route, row: &Row)
        requires { (p : ℕ) → p < 32 → slice_index self.old.bits p ≤ 63 * most_row }
        ensures value { (p : ℕ) → p < 32 → slice_index self.new.bits p ≡ slice_index self.old.bits p + load_in route.now.flow.now row.now p (hops route.now.flow.now) }
        ensures few { (p : ℕ) → p < 32 → slice_index self.new.bits p ≤ slice_index self.old.bits p + most_row }
    {
        let crossed = &route.flow.path.ports[..route.hops()];
        for (port, cell) in crossed.iter().zip(&row.cells) {
            self.add(usize::from(*port), u64::from(*cell));
        }
    }

    // D of port p by its B.
    pub(crate) fn delay(&self, plan: &Plan, p: usize) -> u64
        requires { p < plan.now.parts.size.ports }
        ensures value { result ≡ delay_by (port_at plan.now.parts p) (slice_index self.now.bits p) }
        ensures few { result ≤ most_delay }
    {
        let port = plan.parts.ports[p];
        u64::from(port.latency) + up(self.bits[p], u64::from(port.rate))
    }

    // B + r × D of port p, by its r and its D.
    pub(crate) fn backlog(&self, plan: &Plan, p: usize, rates: u64, delay: u64) -> u64
        requires port { p < plan.now.parts.size.ports }
        requires rates { rates ≡ rates_through plan.now.parts p }
        requires few { delay ≤ most_delay }
        ensures { result ≡ slice_index self.now.bits p + rates_through plan.now.parts p * delay }
    {
        self.bits[p] + rates * delay
    }
}

// What a table makes of each port: B, D, and D - m, which is 0 where m exceeds D.
// A list of each, since needs go by the gaps alone and stretches by the delays alone.
#[derive(Clone, Copy)]
pub struct Reckoned {
    pub loads: PortLoads,
    pub delays: PortTimes,
    pub gaps: PortTimes,
}

// B of each port.
pub(crate) fn loads(plan: &Plan, table: &Table) -> PortLoads
    ensures { (p : ℕ) → p < 32 → slice_index result.bits p ≡ load plan.now.parts table.now p }
{
    let mut sums = PortLoads::none();
    let rows = &table.rows[..plan.parts.size.flows];
    for (f, row) in rows.iter().enumerate() {
        sums.add_row(&route_of(plan, f), row);
    }
    sums
}
