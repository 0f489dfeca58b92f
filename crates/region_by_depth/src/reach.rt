// What the triangles of a set reach.
ghost use Rattle.std.specs.Prelude.{◌≡◌, length};
ghost use Rattle.region_by_nodes.specs.Nodes.{in_set};
ghost use Rattle.region_cells.specs.Depth as Depth;
ghost use Rattle.region_cells.specs.Steps.{reached, reached_by};
ghost use Rattle.region_by_depth.specs.Held.{Long};

use crate::middles::{Filing, Middles};
use crate::walk::Search;
use cells::Block;
use faces::Triangle;
use region_by_nodes::boundary::KeptSet;

// Marks what a triangle reaches.
fn reach(t: Triangle, depth: f64, middles: Middles, marks: &mut [bool])
    requires { length marks.old ≡ length middles.centroids.now }
    ensures { marks.new ≡ reached middles.entry.size depth t middles.entry.centroids.now marks.old }
{
    let lo = region_cells::cell_of(region_cells::low(t), middles.size);
    let hi = region_cells::cell_of(region_cells::high(t), middles.size);
    let block = Block::about(lo, hi);
    if block.x1 < block.x0 {
        return;
    }
    if block.y1 < block.y0 {
        return;
    }
    let limit = depth * depth;
    cells_walk::walk(
        &mut Search {
            t,
            limit,
            middles,
            marks,
        },
        block,
    );
}

// Marks what the triangles of a set reach.
#[tactic(auto, unfolding(region_by_nodes::specs::Nodes::in_set, region_cells::specs::Steps::reached_by, lists::specs::Lists::fold_to, lists::specs::Lists::choose))]
fn reach_all(nodes: &[[f64; 3]], set: KeptSet, depth: f64, middles: Middles, marks: &mut [bool])
    requires { length marks.old ≡ length middles.centroids.now }
    ensures { let b = set.entry.boundary in marks.new ≡ reached_by nodes.now b.tris.now (in_set b.surfaces.now b.starts.now b.kept.now set.entry.number) middles.entry.size depth middles.entry.centroids.now (length b.tris.now) marks.old }
{
    let b = set.boundary;
    for (t, tri) in b.tris.iter().enumerate() {
        if region_by_nodes::in_set(b.starts, b.kept, set.number, b.surfaces[t]) {
            reach(region_cells::corners(nodes, *tri), depth, middles, marks);
        }
    }
}

// Marks what a set reaches at a depth.
pub fn by_depth(
    nodes: &[[f64; 3]],
    set: KeptSet,
    depth: f64,
    centroids: &[[f64; 3]],
    filing: &mut Filing,
    marks: &mut [bool],
)
    requires { Long (length centroids.now) filing.old × (length marks.old ≡ length centroids.now) }
    ensures long { Long (length centroids.now) filing.new }
    ensures marked { let b = set.entry.boundary in let of = in_set b.surfaces.now b.starts.now b.kept.now set.entry.number in marks.new ≡ reached_by nodes.now b.tris.now of (Depth.cell_size nodes.now b.tris.now of depth) depth centroids.now (length b.tris.now) marks.old }
{
    let size = region_cells::cell_size(nodes, set, depth);
    let cells = &mut *filing.cells;
    let order = &mut *filing.order;
    let place = &mut *filing.place;
    let first = &mut *filing.first;
    region_cells::cells_of(centroids, size, cells);
    let buckets = cells_file::file(cells, order, place, first);
    let middles = filing.middles(centroids, size, buckets);
    reach_all(nodes, set, depth, middles, marks);
}
