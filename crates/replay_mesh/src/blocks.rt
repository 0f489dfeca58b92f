// One case of `block`, of at most 2 cells a side: the cells, the size; then how many nodes, tetrahedra and triangles there are, and their lists, of 125, 48 and 48
// places, zero behind the last.
use mesh_block::{Counts, Lists};
use refusal::Refusal;
use replay_sample::read::{are, point};
use replay_sample::words::word;
use std::io::Read;

fn cells(sample: &mut impl Read) -> usize {
    (word(sample) % 3) as usize
}

// Whether a mesh was made with the counts that come. They are read where it was refused, too: the next case stands behind them.
fn is_made(sample: &mut impl Read, outcome: Result<Counts, Refusal>) -> bool {
    let nodes = word(sample);
    let tets = word(sample);
    let tris = word(sample);
    match outcome {
        Ok(made) => {
            (u64::from(made.nodes) == nodes)
                & (u64::from(made.tets) == tets)
                & (u64::from(made.tris) == tris)
        }
        Err(_) => false,
    }
}

pub fn block(sample: &mut impl Read) -> bool {
    let x = cells(sample);
    let y = cells(sample);
    let z = cells(sample);
    let size = point(sample);
    let mut nodes = [[0.0; 3]; 125];
    let mut tets = [[0u32; 10]; 48];
    let mut surfaces = [0u32; 48];
    let mut tris = [[0u32; 6]; 48];
    let mut edges = [0u32; 216];
    let outcome = mesh_block::block(
        [x, y, z],
        size,
        Lists {
            nodes: &mut nodes,
            tets: &mut tets,
            surfaces: &mut surfaces,
            tris: &mut tris,
            edges: &mut edges,
        },
    );
    let counts = is_made(sample, outcome);
    let all_nodes = are(sample, &nodes);
    let all_tets = are(sample, &tets);
    let all_surfaces = are(sample, &surfaces);
    let all_tris = are(sample, &tris);
    counts & all_nodes & all_tets & all_surfaces & all_tris
}
