// One case of a product with the filter's table, of 12 rows and 48 entries: the table's three lists, the list, then what the Rust gave.
use filter_table::Table;
use replay_sample::read::{are, fill};
use std::io::Read;

pub fn product<R: Read, F: Fn(Table, &[f64], &mut [f64])>(sample: &mut R, f: F) -> bool
    requires { F.IsAlwaysCallable f }
{
    let mut starts = [0u32; 13];
    let mut near = [0u32; 48];
    let mut coef = [0.0; 48];
    let mut x = [0.0; 12];
    let mut out = [0.0; 12];
    fill(sample, &mut starts);
    fill(sample, &mut near);
    fill(sample, &mut coef);
    fill(sample, &mut x);
    let table = Table {
        starts: &starts,
        near: &near,
        coef: &coef,
    };
    f(table, &x, &mut out);
    are(sample, &out)
}
