// One case of `asymmetry`, of 30 nodes and 20 triangles: the nodes, the triangles, the plane's point and normal; then the distance.
use geom::Mirror;
use refusal::Refusal;
use region_asymmetry::Work;
use replay_sample::read::{fill, point};
use replay_sample::words::{number, same};
use std::io::Read;

fn measured(nodes: &[[f64; 3]], triangles: &[[u32; 6]], mirror: Mirror) -> Result<f64, Refusal> {
    let work = Work {
        faces: &mut [[0.0; 9]; 20],
        kx: &mut [0; 20],
        ky: &mut [0; 20],
        kz: &mut [0; 20],
        order: &mut [0; 20],
        scratch: &mut [0; 20],
        boxes: &mut [[0.0; 6]; 20],
        seen: &mut [false; 30],
    };
    region_asymmetry::asymmetry(nodes, triangles, mirror, work)
}

pub fn asymmetry(sample: &mut impl Read) -> bool {
    let mut nodes = [[0.0; 3]; 30];
    let mut triangles = [[0u32; 6]; 20];
    fill(sample, &mut nodes);
    fill(sample, &mut triangles);
    let at = point(sample);
    let normal = point(sample);
    let outcome = measured(&nodes, &triangles, Mirror { point: at, normal });
    let far = number(sample);
    match outcome {
        Ok(x) => same(x, far),
        Err(_) => false,
    }
}
