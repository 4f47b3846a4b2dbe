// What a flow keeps.
ghost use Rattle.std.specs.Prelude.{◌≡◌, ◌+◌, ◌<◌, ◌≤◌, ◌&&◌, Ok, Err, MatchResult, OnOk, nat_le, slice_index_or};
ghost use Rattle.draft.specs.Plans.{hops, no_port};
ghost use Rattle.refusal.specs.Firsts.{all_below, first_refusal};
ghost use Rattle.plan.specs.Checks.{bit_fits, bucket_fits, flow_answer, frame_fits, mask_fits};
ghost use Rattle.plan.specs.Limits.{regulators_of};
ghost use Rattle.plan.specs.Rates.{Simples};

use crate::fault::PlanFault;
use crate::path::path_fits;
use draft::limits::{LEAST_FRAME, MOST_BURST, MOST_FRAME, MOST_HOPS, MOST_RATE, MOST_REGULATORS};
use draft::{Flow, Parts, Port};

fn bucket_fits(flow: Flow) -> bool
    ensures { result ≡ bucket_fits flow }
{
    flow.rate >= 1
        && flow.rate <= MOST_RATE
        && flow.shortest >= LEAST_FRAME
        && flow.shortest <= flow.longest
        && flow.longest <= MOST_FRAME
        && flow.longest <= flow.burst
        && flow.burst <= MOST_BURST
}

// The shortest frame of a port; 0 where there is no such port.
fn shortest_at(ports: &[Port], p: usize) -> u32
    ensures { result ≡ (slice_index_or ports.now p no_port).shortest }
{
    ports.get(p).map_or(0, |port| port.shortest)
}

fn frame_fits(parts: &Parts, flow: Flow, hop: usize) -> bool
    requires { hop < 8 }
    ensures { result ≡ frame_fits parts.now flow hop }
{
    shortest_at(&parts.ports, flow.path.ports[hop] as usize) <= flow.shortest
}

// No frame of the flow is too short for a port it crosses; by the hop, as paths and masks are judged hop by hop.
fn frames_fit(parts: &Parts, flow: Flow) -> bool
    requires { hops flow ≤ 8 }
    ensures { result ≡ all_below (frame_fits parts.now flow) (hops flow) }
{
    (0..usize::from(flow.path.hops)).all(|hop| frame_fits(parts, flow, hop))
}

fn bit_fits(flow: Flow, hop: usize) -> bool
    ensures { result ≡ bit_fits flow hop }
{
    !(flow.mask.has(hop) && (hop == 0 || hop >= flow.path.hops as usize))
}

// No regulator stands before hop 0 or past the path.
fn mask_fits(flow: Flow) -> bool
    ensures { result ≡ mask_fits flow }
{
    (0..MOST_HOPS).all(|hop| bit_fits(flow, hop))
}

// The mask fits, and so do the regulators counted with it.
fn regulators_fit(flow: Flow, regulators: u32) -> bool
    ensures { result ≡ (mask_fits flow && nat_le regulators 32) }
{
    mask_fits(flow) && regulators <= MOST_REGULATORS
}

// The regulators up to this flow, or what is wrong with it.
fn check_flow(parts: &Parts, f: usize, before: u32) -> Result<u32, PlanFault>
    requires { (before ≡ regulators_of parts.now f) × (before ≤ 32) }
    ensures { MatchResult result (λ n. (flow_answer parts.now f ≡ Ok tt) × (n ≡ regulators_of parts.now (f + 1)) × (n ≤ 32)) (λ e. flow_answer parts.now f ≡ Err e) }
{
    let Some(&flow) = parts.flows.get(f) else {
        return Err(PlanFault::Bucket(f));
    };
    if !bucket_fits(flow) {
        return Err(PlanFault::Bucket(f));
    }
    if !path_fits(flow, parts.size.ports) {
        return Err(PlanFault::Path(f));
    }
    if !frames_fit(parts, flow) {
        return Err(PlanFault::Frames(f));
    }
    let regulators = before + flow.mask.count();
    if !regulators_fit(flow, regulators) {
        return Err(PlanFault::Mask(f));
    }
    Ok(regulators)
}

// The first flow that passes a limit; where none does, there are few enough.
pub(crate) fn check_flows(parts: &Parts) -> Result<(), PlanFault>
    ensures answer { result ≡ first_refusal (flow_answer parts.now) parts.now.size.flows }
    ensures few { OnOk result (parts.now.size.flows ≤ 64) }
    ensures paths { OnOk result (Simples parts.now) }
{
    let mut regulators = 0;
    // By number: a flow past those that there is room for is refused too, and no slice holds it.
    for f in 0..parts.size.flows {
        regulators = check_flow(parts, f, regulators)?;
    }
    Ok(())
}
