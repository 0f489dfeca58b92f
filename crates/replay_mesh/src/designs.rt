// One case of `design`, of 20 nodes and 10 tetrahedra: the nodes, the tetrahedra; then volumes and middles.
use replay_sample::read::{are, fill};
use std::io::Read;

pub fn design(sample: &mut impl Read) -> bool {
    let mut nodes = [[0.0; 3]; 20];
    let mut elements = [[0u32; 10]; 10];
    let mut volumes = [0.0; 10];
    let mut centroids = [[0.0; 3]; 10];
    fill(sample, &mut nodes);
    fill(sample, &mut elements);
    let outcome = region_design::design(&nodes, &elements, &mut volumes, &mut centroids);
    let all_volumes = are(sample, &volumes);
    let all_middles = are(sample, &centroids);
    outcome.is_ok() & all_volumes & all_middles
}
