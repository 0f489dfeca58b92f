// One case of `passive`, of 45 nodes, 12 tetrahedra and 20 triangles: the nodes, the tetrahedra, the triangles, their surfaces, two held and two loaded nodes, two
// kept sets (starts, four surfaces, depths); then the marks.
use region_passive_checks::{Part, Work};
use replay_sample::read::{are, fill};
use std::io::Read;

// The supports, loads and kept sets are read last.
fn marked(
    sample: &mut impl Read,
    nodes: &[[f64; 3]],
    elements: &[[u32; 10]],
    triangles: &[[u32; 6]],
    surfaces: &[u32],
    marks: &mut [bool],
) -> bool {
    let mut held = [0u32; 2];
    let mut loaded = [0u32; 2];
    let mut starts = [0u32; 3];
    let mut kept = [0u32; 4];
    let mut depths = [0.0; 2];
    let mut keep = [false; 45];
    let mut centroids = [[0.0; 3]; 12];
    let mut cells = [[0u64; 3]; 12];
    let mut order = [0u32; 12];
    let mut place = [0u32; 12];
    let mut first = [0u32; 13];
    fill(sample, &mut held);
    fill(sample, &mut loaded);
    fill(sample, &mut starts);
    fill(sample, &mut kept);
    fill(sample, &mut depths);
    let part = Part {
        nodes,
        tets: elements,
        tris: triangles,
        surfaces,
        held: &held,
        loaded: &loaded,
        starts: &starts,
        kept: &kept,
        depths: &depths,
    };
    let work = Work {
        marks,
        keep: &mut keep,
        centroids: &mut centroids,
        cells: &mut cells,
        order: &mut order,
        place: &mut place,
        first: &mut first,
    };
    region_passive::passive(part, work).is_ok()
}

pub fn passive(sample: &mut impl Read) -> bool {
    let mut nodes = [[0.0; 3]; 45];
    let mut elements = [[0u32; 10]; 12];
    let mut triangles = [[0u32; 6]; 20];
    let mut surfaces = [0u32; 20];
    let mut marks = [false; 12];
    fill(sample, &mut nodes);
    fill(sample, &mut elements);
    fill(sample, &mut triangles);
    fill(sample, &mut surfaces);
    let all = marked(sample, &nodes, &elements, &triangles, &surfaces, &mut marks);
    let as_told = are(sample, &marks);
    all & as_told
}
