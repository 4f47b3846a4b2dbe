// The network as a type.
ghost use Rattle.std.specs.Prelude.{◌≡◌, ℕ, ◌<◌, length};
ghost use Rattle.plan.specs.Limits.{regulators_of};
ghost use Rattle.network.specs.Sources.{first_of};

use crate::source::Source;
use draft::limits::MOST_FLOWS;
use plan::Plan;
use regulator::Regulator;

mod making;
mod offers;
mod questions;

// A plan and a cabinet, both its own; whether it is open; what is kept for each flow; and the regulators, in the order of
// flow and then hop. Arrays, since nothing is allocated. Open is a truth value and no case of an enum: a closed network answers the same questions.
pub struct Network<C> {
    plan: Plan,
    cabinet: C,
    open: bool,
    sources: [Source; MOST_FLOWS],
    regulators: [Regulator; 32],
    ghost sized: { (length sources ≡ 64) × (length regulators ≡ 32) },
    ghost numbered: { (f : ℕ) → f < plan.parts.size.flows → first_of sources f ≡ regulators_of plan.parts f },
}
