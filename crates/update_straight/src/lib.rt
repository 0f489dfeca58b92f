// An update without sharpening, with few volumes reckoned. The volume kept falls as the rate rises, so that a rate which keeps too much settles
// every rate below it, and one which keeps too little every rate above. Two such rates are guessed, as near together as may be, and checked.
#![tactic(auto)]

mod certify;
mod guess;

ghost use Rattle.std.specs.Prelude.{◌≡◌, true, ◌-◌, length, IfSome};
ghost use Rattle.lists.specs.Lists.{zero64};
ghost use Rattle.update_rates.specs.Rates.{while_to, halves, halved, first_rate, updated};
ghost use Rattle.update_rates.specs.Steps.{more as more_at, off as off_at, stand_at, standing, straight_of};
ghost use Rattle.update_straight.specs.Steps.{Knows};

use update_design::Problem;
use update_rates::{Bracket, PASSES, Reached, Side, Stand};

// A problem with the volume held solid, and a slope of the volume for each element.
#[derive(Clone, Copy)]
struct Sloped<'a> {
    problem: Problem<'a>,
    solid: f64,
    ghost dv_len: { length problem.dv.now ≡ length problem.x.now },
}

// Whether a rate keeps more than the target and is off it: told by what is known, or reckoned.
fn judge(at: Sloped, known: Bracket, rate: f64) -> Side
    requires { Knows (straight_of at.problem at.solid) known }
    ensures { (result.more ≡ more_at (straight_of at.entry.problem at.entry.solid) rate) × (result.off ≡ off_at (straight_of at.entry.problem at.entry.solid) rate) }
{
    let Bracket { low, high } = known;
    if (rate > 0.0) & (rate <= low) {
        return Side {
            more: true,
            off: true,
        };
    }
    if (high <= rate) & (rate < 1.0 / 0.0) {
        return Side {
            more: false,
            off: true,
        };
    }
    Side::of(at.problem, certify::kept_at(at, rate))
}

fn search(at: Sloped, known: Bracket, first: f64) -> Reached
    requires knows { Knows (straight_of at.problem at.solid) known }
    requires first_value { off_at (straight_of at.problem at.solid) first ≡ true }
    ensures { let g = straight_of at.entry.problem at.entry.solid in stand_at g result.bracket.low result.bracket.high result.rate result.passes ≡ while_to (halves g) (halved g) (200 - 1) (stand_at g zero64 first first 1) }
{
    let mut bracket = Bracket {
        low: 0.0,
        high: first,
    };
    let mut rate = first;
    let mut off = true;
    for passes in 1..PASSES {
        if !off {
            return Reached {
                bracket,
                rate,
                passes,
            };
        }
        let Some(middle) = bracket.middle() else {
            return Reached {
                bracket,
                rate,
                passes,
            };
        };
        let side = judge(at, known, middle);
        bracket = bracket.halved(middle, side.more);
        rate = middle;
        off = side.off;
    }
    Reached {
        bracket,
        rate,
        passes: PASSES,
    }
}

// The whole: `first` is the first rate. None: the guess does not serve.
pub fn straight(
    problem: Problem,
    solid: f64,
    first: f64,
    design: &mut [f64],
    work: &mut [f64],
) -> Option<Stand>
    requires lengths { (length problem.dv.now ≡ length problem.x.now) × (length design.old ≡ length problem.x.now) × (length work.old ≡ length problem.x.now) }
    requires first_value { first ≡ first_rate (straight_of problem solid) }
    ensures { IfSome result (λ s. standing s design.new ≡ updated (straight_of problem.entry solid)) }
{
    let at = Sloped { problem, solid };
    guess::reaches(problem, work);
    let likely = guess::guess(at, work, first);
    let sure = certify::known(at, likely);
    if (sure.high <= first) & (first < 1.0 / 0.0) {
        let Reached {
            bracket,
            rate,
            passes,
        } = search(at, sure, first);
        problem.design_at(rate, design);
        return Some(Stand {
            bracket,
            kept: solid + oc_record::dot(problem.dv, design),
            passes,
        });
    }
    None
}
