// The rates that meet at a port.
ghost use Rattle.std.specs.Prelude.{◌≡◌, ℕ, ◌+◌, ◌*◌, ◌<◌, ◌≤◌, if◌then◌else◌, slice_index};
ghost use Rattle.refusal.specs.Firsts.{first_refusal};
ghost use Rattle.plan.specs.Checks.{rates_answer};
ghost use Rattle.plan.specs.Limits.{crosses, rates_through};
ghost use Rattle.plan.specs.Rates.{Simple, Simples};

use crate::fault::PlanFault;
use crate::path::crosses;
use draft::limits::MOST_PORTS;
use draft::{Flow, Parts};

// A flow's rate at a port: 0 where it does not cross it.
fn rate_at(flow: Flow, port: usize) -> u64
    ensures value { result ≡ (if crosses flow port then flow.rate else 0) }
    ensures small { result ≤ 4294967295 }
{
    if crosses(flow, port) {
        u64::from(flow.rate)
    } else {
        0
    }
}

// The rates through a port, summed: for one port this asks less than `rates`, which sums for all in one pass.
pub(crate) fn rates_through(parts: &Parts, port: usize) -> u64
    requires { parts.now.size.flows ≤ 64 }
    ensures { result ≡ rates_through parts.now port }
{
    let mut sum = 0;
    for flow in parts.flows() {
        sum += rate_at(*flow, port);
    }
    sum
}

// A flow's rate, added at each port of its path.
fn add_rate(sums: &mut [u64; MOST_PORTS], flow: &Flow)
    requires path { Simple 32 flow.now }
    requires few { (p : ℕ) → p < 32 → slice_index sums.old p ≤ 64 * (8 * 4294967295) }
    ensures value { (p : ℕ) → p < 32 → slice_index sums.new p ≡ slice_index sums.old p + (if crosses flow.now p then flow.now.rate else 0) }
    ensures few { (p : ℕ) → p < 32 → slice_index sums.new p ≤ slice_index sums.old p + 8 * 4294967295 }
{
    for port in flow.path.crossed() {
        sums[usize::from(*port)] += u64::from(flow.rate);
    }
}

// The rates through every port, summed in one pass over the flows.
pub(crate) fn rates(parts: &Parts) -> [u64; MOST_PORTS]
    requires size { (parts.now.size.ports ≤ 32) × (parts.now.size.flows ≤ 64) }
    requires paths { Simples parts.now }
    ensures { (p : ℕ) → p < 32 → slice_index result p ≡ rates_through parts.now p }
{
    let mut sums = [0; MOST_PORTS];
    for flow in parts.flows() {
        add_rate(&mut sums, flow);
    }
    sums
}

// The first port whose own rate is passed by the rates through it.
pub(crate) fn check_rates(parts: &Parts) -> Result<(), PlanFault>
    requires size { (parts.now.size.ports ≤ 32) × (parts.now.size.flows ≤ 64) }
    requires paths { Simples parts.now }
    ensures { result ≡ first_refusal (rates_answer parts.now) parts.now.size.ports }
{
    let sums = rates(parts);
    // The sums go by the port's number, which the fault tells too: a zip in an enumerate was no plainer.
    for (p, port) in parts.ports().iter().enumerate() {
        if sums[p] > u64::from(port.rate) {
            return Err(PlanFault::Rates(p));
        }
    }
    Ok(())
}
