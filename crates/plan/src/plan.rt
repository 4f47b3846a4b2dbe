// The plan as a type: whatever plan there is keeps every limit.
ghost use Rattle.std.specs.Prelude.{◌≡◌, ◌≤◌, true, length};
ghost use Rattle.plan.specs.Checks.{faultless};

use draft::Parts;

mod check;
mod rates;

// Ports and flows that keep the limits.
#[derive(Clone, Copy)]
pub struct Plan {
    pub parts: Parts,
    ghost sized: { (length parts.ports ≡ 32) × (length parts.flows ≡ 64) },
    ghost few: { (parts.size.ports ≤ 32) × (parts.size.flows ≤ 64) },
    ghost kept: { faultless parts ≡ true },
}
