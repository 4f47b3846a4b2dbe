// What a port keeps.
ghost use Rattle.std.specs.Prelude.{◌≡◌, ◌≤◌, OnOk};
ghost use Rattle.refusal.specs.Firsts.{first_refusal};
ghost use Rattle.plan.specs.Checks.{figures_fit, port_answer, port_fits, stay_fits};

use crate::fault::PlanFault;
use draft::limits::{LEAST_FRAME, MOST_FRAME, MOST_LATENCY, MOST_RATE};
use draft::{Parts, Port};
use rounding::up;

fn figures_fit(port: Port) -> bool
    ensures { result ≡ figures_fit port }
{
    port.rate >= 1
        && port.rate <= MOST_RATE
        && port.latency <= MOST_LATENCY
        && port.shortest >= LEAST_FRAME
        && port.shortest <= MOST_FRAME
}

fn stay_fits(port: Port) -> bool
    ensures { result ≡ stay_fits port }
{
    u64::from(port.stay)
        <= u64::from(port.latency) + up(u64::from(port.shortest), u64::from(port.rate))
}

// Whether a port keeps every limit: its rate, latency, shortest frame and least stay.
pub fn port_fits(port: Port) -> bool
    ensures { result ≡ port_fits port }
{
    figures_fit(port) && stay_fits(port)
}

fn check_port(parts: &Parts, p: usize) -> Result<(), PlanFault>
    ensures { result ≡ port_answer parts.now p }
{
    let Some(&port) = parts.ports.get(p) else {
        return Err(PlanFault::Figures(p));
    };
    if !figures_fit(port) {
        return Err(PlanFault::Figures(p));
    }
    if !stay_fits(port) {
        return Err(PlanFault::Stay(p));
    }
    Ok(())
}

// The first port that passes a limit; where none does, there are few enough.
pub(crate) fn check_ports(parts: &Parts) -> Result<(), PlanFault>
    ensures answer { result ≡ first_refusal (port_answer parts.now) parts.now.size.ports }
    ensures few { OnOk result (parts.now.size.ports ≤ 32) }
{
    // By number: a port past those that there is room for is refused too, and no slice holds it.
    for p in 0..parts.size.ports {
        check_port(parts, p)?;
    }
    Ok(())
}
