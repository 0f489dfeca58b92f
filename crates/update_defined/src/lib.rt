// An update as it is defined, every volume reckoned.
#![tactic(auto)]

mod defined;

ghost use Rattle.std.specs.Prelude.{◌≡◌, length, IfSome};
ghost use Rattle.filter_table.specs.Known.{IsOf};
ghost use Rattle.update_rates.specs.Rates.{first_rate, updated};
ghost use Rattle.update_rates.specs.Steps.{given_of, standing};

use defined::Defined;
use filter_table::{Table, WellFormed};
use oc_kept::Rule;
use update_design::Problem;
use update_rates::Stand;

// The table, where the filter's products may go without tests; unsharpened there are none.
fn tested(rule: Rule, table: Table<'_>, n: usize) -> Option<WellFormed<'_>>
    ensures { IfSome result (λ w. IsOf w table.entry n n) }
{
    match rule {
        Rule::Straight(_) => None,
        Rule::Sharpened(_) => table.well_formed(n, n),
    }
}

// The whole: `rate` is the first.
pub fn every(
    problem: Problem,
    rule: Rule,
    table: Table,
    volumes: &[f64],
    rate: f64,
    design: &mut [f64],
    work: &mut [f64],
) -> Stand
    requires lengths { (length design.old ≡ length problem.x.now) × (length work.old ≡ length problem.x.now) }
    requires rate_value { rate ≡ first_rate (given_of problem rule table volumes.now) }
    ensures { standing result design.new ≡ updated (given_of problem.entry rule table.entry volumes.now) }
{
    let formed = tested(rule, table, problem.x.len());
    let defined = Defined {
        problem,
        rule,
        table,
        formed,
        volumes,
    };
    defined.update(rate, design, work)
}
