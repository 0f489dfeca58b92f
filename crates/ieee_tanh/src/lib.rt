// The hyperbolic tangent, for every input.
#![tactic(auto)]

ghost use Rattle.std.specs.Prelude.{◌≡◌};
ghost use Rattle.ieee_tanh.specs.Tanh.{tanh_of};

// The hyperbolic tangent by Lambert's continued fraction, from the inside.
#[tactic(auto, unfolding(crate::specs::Tanh::tanh_of, crate::specs::Tanh::lambert, lists::specs::Lists::fold_to))]
pub fn tanh(z: f64) -> f64
    ensures { result ≡ tanh_of z }
{
    let zz = z * z;
    let mut r = 63.0;
    for i in 0..31u64 {
        r = ((61 - 2 * i) as f64) + zz / r;
    }
    z / r
}
