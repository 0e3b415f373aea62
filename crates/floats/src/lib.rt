// Quotients of whole numbers as 64-bit floats.
#![tactic(auto)]

ghost use Rattle.std.specs.Prelude.{◌≡◌, ◌^◌, ◌≤◌};
ghost use Rattle.floats.specs.Quotients.{over};

// A float holds both numbers with nothing lost, so only the division rounds.
pub fn over(a: u64, b: u64) -> f64
    requires { (a ≤ 2 ^ 53) × (b ≤ 2 ^ 53) }
    ensures { result ≡ over a b }
{
    (a as f64) / (b as f64)
}
