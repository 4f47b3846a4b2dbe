// How a network is made.
ghost use Rattle.std.specs.Prelude.{◌≡◌, ℕ, ◌<◌, length, replicate};
ghost use Rattle.draft.specs.Plans.{port_at};
ghost use Rattle.plan.specs.Limits.{regulators_of};
ghost use Rattle.cabinet.specs.Model.{port_in};
ghost use Rattle.regulator.specs.Regulators.{fresh_regulator};
ghost use Rattle.network.specs.Makes.{Opened, matches, opens, same_figures};
ghost use Rattle.network.specs.Sources.{first_of, levels};
ghost use Rattle.network.specs.Views.{net_of};

use super::Network;
use crate::source::Source;
use cabinet::Cabinet;
use draft::limits::MOST_FLOWS;
use plan::Plan;
use regulator::Regulator;

// Whether port p of the cabinet has the plan's figures; by number, since a cabinet is asked so.
fn same_port<C: Cabinet>(plan: &Plan, cabinet: &C, p: usize) -> bool
    requires { p < plan.now.parts.size.ports }
    ensures { result ≡ same_figures (port_in (C.Cabinet.model cabinet.now) p).figures (port_at plan.now.parts p) }
{
    cabinet.figures(p) == plan.parts.ports[p]
}

// Whether the cabinet's ports are the plan's.
fn agrees<C: Cabinet>(plan: &Plan, cabinet: &C) -> bool
    ensures { result ≡ matches plan.now.parts (C.Cabinet.model cabinet.now) }
{
    let ports = plan.parts.size.ports;
    cabinet.ports() == ports && (0..ports).all(|p| same_port(plan, cabinet, p))
}

// Whether a network of this plan and this cabinet is open.
fn fits<C: Cabinet>(plan: &Plan, cabinet: &C) -> bool
    ensures { result ≡ opens plan.now.parts (C.Cabinet.model cabinet.now) }
{
    cabinet.fresh() && agrees(plan, cabinet)
}

// Every flow with a full level, and the number of its first regulator.
fn sources(plan: &Plan) -> [Source; MOST_FLOWS]
    ensures long { length result ≡ 64 }
    ensures full { levels result ≡ replicate 64 4294967295 }
    ensures numbered { (f : ℕ) → f < plan.now.parts.size.flows → first_of result f ≡ regulators_of plan.now.parts f }
{
    let full = Source {
        level: u32::MAX,
        first: 0,
    };
    let mut found = [full; MOST_FLOWS];
    let mut n = 0;
    // By number: of an array written through a zip nothing is known afterwards.
    for (f, flow) in plan.parts.flows().iter().enumerate() {
        found[f].first = n;
        n += flow.mask.count() as usize;
    }
    found
}

// Regulators into which nothing has been put.
fn fresh_regulators() -> [Regulator; 32]
    ensures { result ≡ replicate 32 fresh_regulator }
{
    [Regulator::new(); 32]
}

impl<C: Cabinet> Network<C> {
    // A network of this plan and this cabinet: open where the cabinet is fresh and its ports are the plan's, else closed.
    pub fn new(plan: Plan, cabinet: C) -> Network<C>
        ensures open { (net_of C.Cabinet.model result).is_open ≡ opens plan.parts (C.Cabinet.model cabinet) }
        ensures opened { Opened plan.parts (net_of C.Cabinet.model result) }
    {
        let open = fits(&plan, &cabinet);
        let sources = sources(&plan);
        Network {
            plan,
            cabinet,
            open,
            sources,
            regulators: fresh_regulators(),
        }
    }
}
