// One case of a filter's table, of 8 elements: middles, volumes, radius, the planes; then starts, neighbours and coefficients, 64 places each of the
// last two, zero behind the last row.
use filter::work::{Input, TableMut, Work};
use replay_sample::read::{are, fill};
use replay_sample::words::number;
use std::io::Read;

// What comes is the table of an input.
fn built(sample: &mut impl Read, input: Input) -> bool {
    let mut starts = [0u32; 9];
    let mut near = [0u32; 64];
    let mut coef = [0.0; 64];
    let mut cell = [[0u64; 3]; 8];
    let mut order = [0u32; 8];
    let mut first = [0u32; 9];
    let mut sorted = [[0.0; 3]; 8];
    let mut stamp = [0u32; 8];
    let mut weight = [0.0; 8];
    let mut found = [0u32; 8];
    let mut bits = [0u64; 1040];
    let mut table = TableMut {
        starts: &mut starts,
        near: &mut near,
        coef: &mut coef,
    };
    let mut work = Work {
        cell: &mut cell,
        order: &mut order,
        first: &mut first,
        sorted: &mut sorted,
        stamp: &mut stamp,
        weight: &mut weight,
        found: &mut found,
        bits: &mut bits,
    };
    let outcome = filter_build::build(input, &mut table, &mut work);
    let all_starts = are(sample, &starts);
    let all_near = are(sample, &near);
    let all_coef = are(sample, &coef);
    outcome.is_ok() & all_starts & all_near & all_coef
}

// `planes` is room for the planes that the case has.
pub fn table(sample: &mut impl Read, planes: &mut [[f64; 6]]) -> bool {
    let mut centroids = [[0.0; 3]; 8];
    let mut volumes = [0.0; 8];
    fill(sample, &mut centroids);
    fill(sample, &mut volumes);
    let radius = number(sample);
    fill(sample, planes);
    built(
        sample,
        Input {
            centroids: &centroids,
            volumes: &volumes,
            radius,
            planes,
        },
    )
}
