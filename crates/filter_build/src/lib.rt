// filter.rs, `Filter::within`: the table built into three lent lists, or refused.
#![tactic(auto)]

ghost use Rattle.std.specs.Prelude.{◌≡◌};
ghost use Rattle.refusal.specs.Refusals.{refused};
ghost use Rattle.filter.specs.Build.{lengths_of, early, Built};
ghost use Rattle.filter.specs.Held.{lent, SameTable, SameWork};

use filter::work::{Input, TableMut, Work, WorkLengths};
use refusal::Refusal;

// What is refused before any row.
fn check(input: Input, table: &TableMut, work: &Work) -> Result<(), Refusal>
    ensures { refused result ≡ early input.entry.centroids.now input.entry.volumes.now input.entry.radius input.entry.planes.now (lengths_of (lent table.now work.now)) }
{
    filter_checks::check(input, table.starts.len(), WorkLengths::of(work))
}

// Builds the table, over the radius and the same on both sides of each plane.
pub fn build(input: Input, table: &mut TableMut, work: &mut Work) -> Result<(), Refusal>
    ensures same_table { SameTable table.old table.new }
    ensures same_work { SameWork work.old work.new }
    ensures built { Built input.entry.centroids.now input.entry.volumes.now input.entry.radius input.entry.planes.now (lent table.old work.old) (refused result) (lent table.new work.new) }
{
    check(input, table, work)?;
    if let Err(refusal) = filter_rows::fill::fill_front(input, table, work) {
        filter_wipe::wipe_table(table);
        filter_wipe::wipe_work(work);
        return Err(refusal);
    }
    Ok(())
}
