// The lists of a filter's build set to zero, to their ends. No surface of its own.
#![tactic(auto)]

ghost use Rattle.std.specs.Prelude.{◌≡◌};
ghost use Rattle.lists.specs.Lists.{zero64};
ghost use Rattle.lent.specs.Lent.{zeros};
ghost use Rattle.filter.specs.Held.{working, SameTable, SameWork};
ghost use Rattle.filter_wipe.specs.Wiped.{Wiped};

use filter::work::{TableMut, Work};

// The working lists set to zero, to their ends.
pub fn wipe_work(work: &mut Work)
    ensures same { SameWork work.old work.new }
    ensures wiped { Wiped (working work.old) (working work.new) }
{
    work.cell.fill([0; 3]);
    work.order.fill(0);
    work.first.fill(0);
    work.sorted.fill([0.0; 3]);
    work.stamp.fill(0);
    work.weight.fill(0.0);
    work.found.fill(0);
    work.bits.fill(0);
}

// The three filter lists set to zero, to their ends.
pub fn wipe_table(table: &mut TableMut)
    ensures same { SameTable table.old table.new }
    ensures starts { table.new.starts.now ≡ zeros 0 table.old.starts.now }
    ensures near { table.new.near.now ≡ zeros 0 table.old.near.now }
    ensures coef { table.new.coef.now ≡ zeros zero64 table.old.coef.now }
{
    table.starts.fill(0);
    table.near.fill(0);
    table.coef.fill(0.0);
}
