// What becomes of one element: `at` of oc.rs, and the first rate.
#![tactic(auto)]

ghost use Rattle.std.specs.Prelude.{◌≡◌};
ghost use Rattle.std.specs.Float.{binary64};
ghost use Rattle.std.specs.Float.Ieee.{lt, mul};
ghost use Rattle.lists.specs.Lists.{choose, zero64};
ghost use Rattle.ieee.specs.Basic.{one64};
ghost use Rattle.update_value.specs.Value.{gain_of, grown as grown_of, limited as limited_of, next_of, ten_thousand};

// The work that a value saves for the volume that it costs.
#[tactic(auto, unfolding(crate::specs::Value::gain_of))]
pub fn gain_of(c: f64, v: f64) -> f64
    ensures { result ≡ gain_of c v }
{
    lists::either(v > 0.0, ieee::max(-c, 0.0) / v, 0.0)
}

#[tactic(auto, unfolding(crate::specs::Value::grown, lists::specs::Lists::choose))]
pub fn grown(old: f64, gain: f64, rate: f64) -> f64
    ensures { result ≡ grown_of old gain rate }
{
    if gain > 0.0 {
        old * ieee_root::sqrt(gain / rate)
    } else {
        0.0
    }
}

// Raised to the lower bound, and then lowered to the upper.
#[tactic(auto, unfolding(crate::specs::Value::limited))]
pub fn limited(old: f64, m: f64, v: f64) -> f64
    ensures { result ≡ limited_of old m v }
{
    ieee::min(
        ieee::max(v, ieee::max(old - m, topo::X_MIN)),
        ieee::min(old + m, 1.0),
    )
}

#[tactic(auto, unfolding(crate::specs::Value::next_of))]
pub fn next_value(held: bool, old: f64, gain: f64, m: f64, rate: f64) -> f64
    ensures { result ≡ next_of held old gain m rate }
{
    lists::either(held, 1.0, limited(old, m, grown(old, gain, rate)))
}

// The rate to begin at, by the greatest gain.
pub fn first_rate(most: f64) -> f64
    ensures { result ≡ choose (lt zero64 most) (mul binary64 ten_thousand most) one64 }
{
    lists::either(most > 0.0, 1e4 * most, 1.0)
}
