// One case of a tetrahedron, of 10 nodes: the nodes, its ten numbers; then its volume, corner volume and middle, and the nodes' extent.
use replay_sample::read::fill;
use replay_sample::words::{number, same};
use std::io::Read;

pub fn tetrahedron(sample: &mut impl Read) -> bool {
    let mut nodes = [[0.0; 3]; 10];
    let mut tet = [0u32; 10];
    fill(sample, &mut nodes);
    fill(sample, &mut tet);
    let volume = same(mesh::volume(&nodes, tet), number(sample));
    let corner_volume = same(mesh::corner_volume(&nodes, tet), number(sample));
    let q = mesh::centroid(&nodes, tet);
    let x = same(q.x, number(sample));
    let y = same(q.y, number(sample));
    let z = same(q.z, number(sample));
    let extent = same(mesh::extent(&nodes), number(sample));
    volume & corner_volume & x & y & z & extent
}
