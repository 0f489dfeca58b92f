// The stages of an update as it is defined.
ghost use Rattle.std.specs.Prelude.{◌≡◌, length};
ghost use Rattle.std.specs.Option.{ForSome};
ghost use Rattle.filter_table.specs.Known.{IsOf};

use filter_table::{Table, WellFormed};
use oc_kept::Rule;
use update_design::Problem;
use update_rates::{Bracket, PASSES, Side, Stand};

// What an update is given.
#[derive(Clone, Copy)]
pub struct Defined<'a> {
    pub problem: Problem<'a>,
    pub rule: Rule,
    pub table: Table<'a>,
    // the table, where its products may go without tests
    pub formed: Option<WellFormed<'a>>,
    pub volumes: &'a [f64],
    pub ghost formed_is: { ForSome formed (λ w. IsOf w table (length problem.x.now) (length problem.x.now)) },
}

impl<'a> Defined<'a> {
    ghost use Rattle.std.specs.Prelude.{◌≡◌, true, ◌-◌, ◌≤◌, length};
    ghost use Rattle.lists.specs.Lists.{zero64};
    ghost use Rattle.update_rates.specs.Rates.{reckoned, while_to, raises, raised, halves, halved, first_rate, updated};
    ghost use Rattle.update_rates.specs.Steps.{standing};
    ghost use Rattle.update_defined.specs.Defined.{defined_of};

    // The volume that `design` keeps.
    // Stays, here and below, that the lists are as long as the problem's: they are lent to be written, and are no part of what is defined.
    fn kept(self, design: &[f64], work: &mut [f64]) -> f64
        requires { (length design.now ≡ length self.problem.x.now) × (length work.old ≡ length self.problem.x.now) }
        ensures { result ≡ reckoned (defined_of self.entry) design.now }
    {
        oc_kept::kept(
            self.rule,
            self.problem.dv,
            self.table,
            self.formed,
            self.volumes,
            self.problem.passive,
            design,
            work,
        )
    }

    // The same, which is `kept` where the design is the same as before.
    fn kept_again(self, same: bool, kept: f64, design: &[f64], work: &mut [f64]) -> f64
        requires lengths { (length design.now ≡ length self.problem.x.now) × (length work.old ≡ length self.problem.x.now) }
        requires kept_value { same ≡ true → kept ≡ reckoned (defined_of self) design.now }
        ensures { result ≡ reckoned (defined_of self.entry) design.now }
    {
        if same { kept } else { self.kept(design, work) }
    }

    // The upper rate doubled until it keeps no more than the target, or until no less can be kept. `first` is the first rate, at which the design
    // keeps `begun`.
    fn raise(self, first: f64, begun: f64, design: &mut [f64], work: &mut [f64]) -> Stand
        requires lengths { (length design.old ≡ length self.problem.x.now) × (length work.old ≡ length self.problem.x.now) }
        requires kept_value { begun ≡ reckoned (defined_of self) design.old }
        ensures stand { let g = defined_of self.entry in standing result design.new ≡ while_to (raises g) (raised g) 199 (record { low = zero64; high = first; design = design.old; kept = begun; passes = 1 }) }
        ensures passes { result.passes ≤ 200 }
        ensures kept { result.kept ≡ reckoned (defined_of self.entry) design.new }
    {
        let mut bracket = Bracket {
            low: 0.0,
            high: first,
        };
        let mut kept = begun;
        for passes in 1..PASSES {
            let more = Side::of(self.problem, kept).more;
            if !more {
                return Stand {
                    bracket,
                    kept,
                    passes,
                };
            }
            let rate = 2.0 * bracket.high;
            self.problem.design_at(rate, work);
            if update_design::same(work, design) {
                return Stand {
                    bracket,
                    kept,
                    passes,
                };
            }
            lists::copy(work, design);
            kept = self.kept(design, work);
            bracket = Bracket {
                low: bracket.high,
                high: rate,
            };
        }
        Stand {
            bracket,
            kept,
            passes: PASSES,
        }
    }

    // The bracket halved until the volume is met, or until no rate lies between.
    fn halve(self, at: Stand, design: &mut [f64], work: &mut [f64]) -> Stand
        requires lengths { (length design.old ≡ length self.problem.x.now) × (length work.old ≡ length self.problem.x.now) }
        requires passes { at.passes ≤ 200 }
        requires kept_value { at.kept ≡ reckoned (defined_of self) design.old }
        ensures { let g = defined_of self.entry in standing result design.new ≡ while_to (halves g) (halved g) (200 - at.passes) (standing at design.old) }
    {
        let mut bracket = at.bracket;
        let mut kept = at.kept;
        for passes in at.passes..PASSES {
            let off = Side::of(self.problem, kept).off;
            if !off {
                return Stand {
                    bracket,
                    kept,
                    passes,
                };
            }
            let Some(rate) = bracket.middle() else {
                return Stand {
                    bracket,
                    kept,
                    passes,
                };
            };
            let same = self.problem.design_again(rate, design);
            kept = self.kept_again(same, kept, design, work);
            bracket = bracket.halved(rate, Side::of(self.problem, kept).more);
        }
        Stand {
            bracket,
            kept,
            passes: PASSES,
        }
    }

    // The whole: `rate` is the first.
    pub fn update(self, rate: f64, design: &mut [f64], work: &mut [f64]) -> Stand
        requires lengths { (length design.old ≡ length self.problem.x.now) × (length work.old ≡ length self.problem.x.now) }
        requires rate_value { rate ≡ first_rate (defined_of self) }
        ensures { standing result design.new ≡ updated (defined_of self.entry) }
    {
        self.problem.design_at(rate, design);
        let kept = self.kept(design, work);
        let up = self.raise(rate, kept, design, work);
        self.halve(up, design, work)
    }
}
