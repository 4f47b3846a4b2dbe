// A flow of a plan as a route: with its number, and what every flow of a plan keeps.
ghost use Rattle.std.specs.Prelude.{◌≡◌, ◌+◌, ◌*◌, ◌<◌};
ghost use Rattle.draft.specs.Plans.{flow_at, hops};
ghost use Rattle.table.specs.Bounds.{Routed};

use draft::Flow;
use draft::limits::MOST_HOPS;
use plan::Plan;

// A flow and its number in the plan.
#[derive(Clone, Copy)]
pub struct Route<'a> {
    pub number: usize,
    pub flow: &'a Flow,
    ghost among: { number < 64 },
    ghost routed: { Routed flow.now },
}

// The route of flow f.
pub(crate) fn route_of(plan: &Plan, f: usize) -> Route<'_>
    requires { f < plan.now.parts.size.flows }
    ensures number { result.number ≡ f }
    ensures flow { result.flow.now ≡ flow_at plan.now.parts f }
{
    Route {
        number: f,
        flow: &plan.parts.flows[f],
    }
}

impl Route<'_> {
    // How many hops it has.
    pub(crate) fn hops(&self) -> usize
        ensures { result ≡ hops self.now.flow.now }
    {
        usize::from(self.flow.path.hops)
    }

    // The place of its cell at hop k, which is to be below 8; a type for such a number was no plainer.
    pub(crate) fn place(&self, k: usize) -> usize
        requires { k < 8 }
        ensures { result ≡ self.now.number * 8 + k }
    {
        self.number * MOST_HOPS + k
    }
}
