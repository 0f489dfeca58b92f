// The test that a table is well formed. It looks only at what the rows use, with no way out of its loops.
ghost use Rattle.std.specs.Prelude.{◌≡◌, ◌+◌, ◌≤◌, ◌<◌, length, get_or, ltb, leb, is_some, IfSome};
ghost use Rattle.lists.specs.Lists.{any_to};
ghost use Rattle.filter_table.specs.Lent.{is_well};
ghost use Rattle.filter_table.specs.Known.{IsOf};

use crate::{Table, WellFormed};

#[tactic(auto, unfolding(lists::specs::Lists::any_to))]
fn falls(starts: &[u32], n: usize) -> bool
    requires { n < length starts.now }
    ensures { result ≡ any_to (λ e. ltb (get_or starts.now (e + 1) 0) (get_or starts.now e 0)) n }
{
    let mut t = false;
    for e in 0..n {
        t = t | (starts[e + 1] < starts[e]);
    }
    t
}

#[tactic(auto, unfolding(lists::specs::Lists::any_to))]
fn beyond(near: &[u32], end: usize, m: usize) -> bool
    requires { end ≤ length near.now }
    ensures { result ≡ any_to (λ k. leb m (get_or near.now k 0)) end }
{
    let mut t = false;
    // Columns are compared as 32 bits, twice as many at a time. From 2^32 on, m is above them all.
    if m < 4294967296 {
        let m = m as u32;
        for k in 0..end {
            t = t | (m <= near[k]);
        }
    }
    t
}

impl<'a> Table<'a> {
    // Whether the table is well formed for n rows over m columns.
    #[tactic(auto, unfolding(crate::specs::Table::well_of))]
    pub fn well(self, n: usize, m: usize) -> bool
        ensures { result ≡ is_well self.entry n m }
    {
        let Table { starts, near, coef } = self;
        if n < starts.len() {
            let end = starts[n] as usize;
            if (end <= near.len()) & (end <= coef.len()) {
                return !falls(starts, n) & !beyond(near, end, m);
            }
        }
        false
    }

    // The table as one that is known to be well formed, if it is.
    pub fn well_formed(self, rows: usize, columns: usize) -> Option<WellFormed<'a>>
        ensures known { is_some result ≡ is_well self.entry rows columns }
        ensures value { IfSome result (λ w. IsOf w self.entry rows columns) }
    {
        if self.well(rows, columns) {
            return Some(WellFormed {
                table: self,
                rows,
                columns,
            });
        }
        None
    }
}
