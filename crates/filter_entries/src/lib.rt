// The entries of one row: what its elements come to, their sum, and the writing of them.
#![tactic(auto)]

ghost use Rattle.std.specs.Prelude.{◌≡◌, ◌+◌, ◌≤◌, length};
ghost use Rattle.lists.specs.Lists.{sum_to};
ghost use Rattle.filter.specs.Held.{SameTable};
ghost use Rattle.filter_look.specs.Steps.{Within, Kept};
ghost use Rattle.filter_entries.specs.Entries.{product_at, Apart, Written};

use filter::work::TableMut;
use filter_look::met::Met;

// The sum of the row's products, from the left.
#[tactic(auto, unfolding(lists::specs::Lists::sum_to, lists::specs::Lists::fold_to))]
pub fn sum_row(met: &Met, volumes: &[f64]) -> f64
    requires { Within met.now.found.now met.now.count (length met.now.weight.now) × (length met.now.weight.now ≡ length volumes.now) }
    ensures { result ≡ sum_to (product_at met.now.found.now met.now.weight.now volumes.now) met.now.count }
{
    let mut sum = 0.0;
    for k in 0..met.count {
        let i = met.found[k] as usize;
        sum = sum + met.weight[i] * volumes[i];
    }
    sum
}

// Writes the row's entries from `at` on, and sets the weights that it used back to zero.
pub fn put_row(at: usize, sum: f64, volumes: &[f64], met: &mut Met, table: &mut TableMut)
    requires within { Within met.old.found.now met.old.count (length met.old.weight.now) × Apart met.old.found.now met.old.count × (length met.old.weight.now ≡ length volumes.now) }
    requires count_in_bounds { (at + met.old.count ≤ length table.old.near.now) × (at + met.old.count ≤ length table.old.coef.now) }
    ensures kept { Kept met.old met.new }
    ensures same { SameTable table.old table.new }
    ensures written { Written at sum volumes.now met.old table.old met.new table.new }
{
    let count = met.count;
    for k in 0..count {
        let j = met.found[k];
        let i = j as usize;
        let p = met.weight[i] * volumes[i];
        met.weight[i] = 0.0;
        table.near[at + k] = j;
        table.coef[at + k] = p / sum;
    }
}
