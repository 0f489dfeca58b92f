// IEEE 754's square root: the exact root, rounded once to the nearest f64.
#![tactic(auto)]

ghost use Rattle.std.specs.Prelude.{◌≡◌};
ghost use Rattle.std.specs.Float.{binary64};
ghost use Rattle.ieee_root.specs.Sqrt.{sqrt_of};

// The library's root: what 01 says of it is proved in proofs/Library.antt. A number below zero, and a not-a-number, do not go there: the processor would
// give a not-a-number of other bits, which no contract tells apart and a caller sees.
pub fn sqrt(x: f64) -> f64
    ensures { result ≡ sqrt_of binary64 x }
{
    if x < 0.0 {
        return f64::NAN;
    }
    if x != x {
        return x;
    }
    x.sqrt()
}
