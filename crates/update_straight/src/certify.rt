// The check of the guess.
ghost use Rattle.std.specs.Prelude.{◌≡◌, ℕ, ◌<◌, T, length, get_or};
ghost use Rattle.std.specs.Float.{nan, binary64};
ghost use Rattle.std.specs.Float.Ieee.{add, fits};
ghost use Rattle.oc_record.specs.Record.{dot};
ghost use Rattle.update_design.specs.Trial.{trial_of};
ghost use Rattle.update_rates.specs.Steps.{straight_of};
ghost use Rattle.update_straight.specs.Steps.{usual as usual_of, orderly as orderly_of, Knows};

use crate::Sloped;
use update_design::Problem;
use update_rates::{Bracket, Side};

// One rounding below X_MIN: the least that a design begins with.
const LOWEST: f64 = 0.0009999999999999998;

#[tactic(auto, unfolding(crate::specs::Steps::usual))]
fn usual(x: f64, gain: f64, dv: f64) -> bool
    ensures { result ≡ usual_of x gain dv }
{
    (LOWEST <= x) & (x <= 1.0) & (gain < 1.0 / 0.0) & (1.0 / dv > 0.0)
}

// Whether all is as a run has it, so that the volume kept falls as the rate rises.
#[tactic(auto, unfolding(crate::specs::Steps::orderly, lists::specs::Lists::any_to))]
fn orderly(at: Sloped) -> bool
    ensures test { let p = at.entry.problem in result ≡ orderly_of p.x.now p.gain.now p.dv.now p.m at.entry.solid p.target }
    ensures fit { let p = at.entry.problem in (k : ℕ) → k < length p.x.now → T (fits binary64 (get_or p.x.now k nan)) }
{
    let Problem {
        x,
        gain,
        dv,
        m,
        target,
        ..
    } = at.problem;
    let mut t = false;
    for i in 0..x.len() {
        t = t | !usual(x[i], gain[i], dv[i]);
    }
    !t & ((topo::X_MIN <= m) & (m <= 1.0)) & ((1.0 / at.solid > 0.0) & (1.0 / target > 0.0))
}

// The volume that a rate keeps.
pub fn kept_at(at: Sloped, rate: f64) -> f64
    ensures { result ≡ add binary64 at.entry.solid (dot at.entry.problem.dv.now (trial_of at.entry.problem rate)) }
{
    let Problem {
        x,
        gain,
        dv,
        passive,
        m,
        ..
    } = at.problem;
    let mut t = 0.0;
    for (i, v) in x.iter().enumerate() {
        t = t + dv[i] * update_value::next_value(passive[i], *v, gain[i], m, rate);
    }
    at.solid + t
}

// What of the guess holds.
pub fn known(at: Sloped, guess: Bracket) -> Bracket
    ensures { Knows (straight_of at.entry.problem at.entry.solid) result }
{
    let Bracket { low, high } = guess;
    if orderly(at) {
        let a = Side::of(at.problem, kept_at(at, low));
        let b = Side::of(at.problem, kept_at(at, high));
        let too_much = (low > 0.0) & (low < 1.0 / 0.0) & a.more & a.off;
        let too_little = (high > 0.0) & (high < 1.0 / 0.0) & !b.more & b.off;
        return Bracket {
            low: lists::either(too_much, low, 0.0),
            high: lists::either(too_little, high, 1.0 / 0.0),
        };
    }
    Bracket {
        low: 0.0,
        high: 1.0 / 0.0,
    }
}
