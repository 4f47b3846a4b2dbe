// Division rounded up: every delay, due slot and least stay is counted by it.
#![tactic(auto)]

ghost use Rattle.std.specs.Prelude.{◌≡◌, ℕ, ◌+◌, ◌*◌, ◌<◌, ◌≤◌};
ghost use Rattle.rounding.specs.Quotients.{LeastCover, up};

fn ceiling(a: u64, b: u64) -> u64
    requires { 0 < b }
    ensures value { result ≡ up a b }
    ensures least { LeastCover a b result }
    ensures within { result ≤ a }
    ensures rises { (c : ℕ) → a ≤ c → result ≤ up c b }
    ensures shifts { (s : ℕ) → up (s * b + a) b ≡ s + result }
{
    a.div_ceil(b)
}

// The least q with a ≤ q × b, for every b above 0; and 0 where b is 0.
// It rises with a, and whole multiples of b pass through it.
pub fn up(a: u64, b: u64) -> u64
    ensures value { result ≡ up a b }
    ensures least { 0 < b → LeastCover a b result }
    ensures within { result ≤ a }
    ensures rises { (c : ℕ) → a ≤ c → result ≤ up c b }
    ensures shifts { 0 < b → (s : ℕ) → up (s * b + a) b ≡ s + result }
{
    if b == 0 {
        return 0;
    }
    ceiling(a, b)
}
