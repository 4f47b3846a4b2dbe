// What a plan file holds once it is read and checked.
ghost use Rattle.std.specs.Prelude.{◌≡◌, Ok, Err, MatchResult};
ghost use Rattle.plan.specs.Files.{file_answer};

use crate::fault::PlanFault;
use crate::plan::Plan;
use draft::Proposal;

// A plan, and the burst rows that its file proposes.
#[derive(Clone, Copy)]
pub struct Planned {
    pub plan: Plan,
    pub proposal: Proposal,
}

impl Planned {
    // The plan and rows of a file, or the first refusal: the file's before the plan's.
    pub fn read(bytes: &[u8]) -> Result<Planned, PlanFault>
        ensures { MatchResult result (λ f. file_answer bytes.now ≡ Ok (record { parts = f.plan.parts; proposal = f.proposal })) (λ e. file_answer bytes.now ≡ Err e) }
    {
        let draft = file::read(bytes)?;
        Ok(Planned {
            plan: Plan::check(draft.parts)?,
            proposal: draft.proposal,
        })
    }
}
