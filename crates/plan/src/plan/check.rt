// The check of a plan: the plan, or the first limit that it passes.
ghost use Rattle.std.specs.Prelude.{◌≡◌, Ok, Err, MatchResult};
ghost use Rattle.draft.specs.Plans.{empty_parts};
ghost use Rattle.plan.specs.Checks.{limits_answer};
ghost use Rattle.plan.specs.Limits.{Kept};

use super::Plan;
use crate::fault::PlanFault;
use crate::flows::check_flows;
use crate::ports::check_ports;
use crate::rates::check_rates;
use draft::Parts;

// The first limit that is passed.
fn first_fault(parts: &Parts) -> Result<(), PlanFault>
    ensures answer { result ≡ limits_answer parts.now }
    ensures exact { MatchResult result (λ _. Kept parts.now) (λ _. Kept parts.now → ⊥) }
{
    check_ports(parts)?;
    check_flows(parts)?;
    check_rates(parts)?;
    Ok(())
}

impl Plan {
    // The first plan: no port and no flow.
    pub fn empty() -> Plan
        ensures { result.parts ≡ empty_parts }
    {
        Plan {
            parts: Parts::empty(),
        }
    }

    // A plan of these ports and flows exactly where they keep every limit; else the first fault.
    pub fn check(parts: Parts) -> Result<Plan, PlanFault>
        ensures answer { MatchResult result (λ plan. (plan.parts ≡ parts) × (limits_answer parts ≡ Ok tt)) (λ e. limits_answer parts ≡ Err e) }
        ensures exact { MatchResult result (λ _. Kept parts) (λ _. Kept parts → ⊥) }
    {
        first_fault(&parts)?;
        Ok(Plan { parts })
    }
}
