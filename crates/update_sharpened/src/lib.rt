// An update with sharpening. The volumes of two rates are reckoned at a time, for little more than one: that of the rate to be tried, and that of the rate
// which is likely to come after it.
#![tactic(auto)]

mod sharp;

ghost use Rattle.std.specs.Prelude.{◌≡◌, length, IfSome};
ghost use Rattle.update_rates.specs.Rates.{first_rate, updated};
ghost use Rattle.update_rates.specs.Steps.{given_of, standing};

use filter_table::Table;
use oc_kept::Rule;
use oc_project::Projection;
use sharp::Sharp;
use update_design::Problem;
use update_rates::Stand;
use update_two::Reckoning;

// None: the table is not well formed, or the first rate keeps too much.
pub fn sharpened(
    problem: Problem,
    beta: f64,
    table: Table,
    volumes: &[f64],
    first: f64,
    design: &mut [f64],
    work: &mut [f64],
) -> Option<Stand>
    requires lengths { (length design.old ≡ length problem.x.now) × (length work.old ≡ length problem.x.now) }
    requires first_value { first ≡ first_rate (given_of problem (Rule.Sharpened beta) table volumes.now) }
    ensures { IfSome result (λ s. standing s design.new ≡ updated (given_of problem.entry (Rule.Sharpened beta) table.entry volumes.now)) }
{
    let n = problem.x.len();
    let formed = table.well_formed(n, n)?;
    let reckoning = Reckoning {
        at: Projection::at(beta),
        formed,
        volumes,
        passive: problem.passive,
    };
    Sharp { problem, reckoning }.update(first, design, work)
}
