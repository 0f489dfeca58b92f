// The call's stages, on lists that are as long as needed, and on longer ones.
ghost use Rattle.std.specs.Prelude.{◌≡◌, [], ◌≤◌, length, get_or};
ghost use Rattle.lists.specs.Lists.{tabulate};
ghost use Rattle.geom.specs.Points.{stored};
ghost use Rattle.mesh.specs.Mesh.{centroid_of};
ghost use Rattle.region_by_depth.specs.Held.{Long};
ghost use Rattle.region_passive.specs.Passive.{passive_at};
ghost use Rattle.region_passive.specs.Held.{problem, lent, left};
ghost use Rattle.region_passive.specs.Steps.{Fitting, Roomy, Past, deepened_to};

use region_by_depth::middles::Filing;
use region_by_nodes::boundary::Boundary;
use region_passive_checks::{Part, Work};

#[tactic(auto, using(lists::proofs::Filled::stored, lists::proofs::Filled::filled), unfolding(lists::specs::Lists::overwrite))]
fn centroids_of(nodes: &[[f64; 3]], tets: &[[u32; 10]], centroids: &mut [[f64; 3]])
    requires { length centroids.old ≡ length tets.now }
    ensures { centroids.new ≡ tabulate (λ e. stored (centroid_of nodes.now (get_or tets.now e []))) (length tets.now) }
{
    for (e, m) in centroids.iter_mut().enumerate() {
        *m = <[f64; 3]>::from(mesh::centroid(nodes, tets[e]));
    }
}

// Marks what the sets reach, each at its depth.
#[tactic(auto, unfolding(crate::specs::Steps::deepened, crate::specs::Steps::deepened_to, lists::specs::Lists::fold_to, lists::specs::Lists::choose))]
fn by_depths(
    nodes: &[[f64; 3]],
    b: Boundary,
    depths: &[f64],
    centroids: &[[f64; 3]],
    filing: &mut Filing,
    marks: &mut [bool],
)
    requires { (length depths.now ≤ b.sets) × Long (length centroids.now) filing.old × (length marks.old ≡ length centroids.now) }
    ensures { marks.new ≡ deepened_to (record { nodes = nodes.now; tets = []; tris = b.entry.tris.now; surfaces = b.entry.surfaces.now; held = []; loaded = []; starts = b.entry.starts.now; kept = b.entry.kept.now; depths = depths.now }) centroids.now (length depths.now) marks.old }
{
    for (s, depth) in depths.iter().enumerate() {
        if lent::is_depth(*depth) {
            region_by_depth::reach::by_depth(
                nodes,
                b.kept_set(s),
                *depth,
                centroids,
                filing,
                marks,
            );
        }
    }
}

// Marks by nodes, and then by depths.
fn mark(
    part: Part,
    keep: &mut [bool],
    centroids: &mut [[f64; 3]],
    filing: &mut Filing,
    marks: &mut [bool],
)
    requires { Fitting (problem part) (record { marks = marks.old; keep = keep.old; centroids = centroids.old; cells = filing.old.cells.now; order = filing.old.order.now; place = filing.old.place.now; first = filing.old.first.now }) }
    ensures { marks.new ≡ tabulate (passive_at (problem part.entry)) (length part.entry.tets.now) }
{
    let b = Boundary {
        tris: part.tris,
        surfaces: part.surfaces,
        starts: part.starts,
        kept: part.kept,
        sets: part.depths.len(),
    };
    region_by_nodes::by_nodes(part.tets, b, part.held, part.loaded, keep, marks);
    if part.tets.is_empty() {
        return;
    }
    centroids_of(part.nodes, part.tets, centroids);
    by_depths(part.nodes, b, part.depths, centroids, filing, marks);
}

// The same in lists that may be longer, of which the places past those needed are left as they were lent.
pub fn mark_front(part: Part, work: Work)
    requires { Roomy (problem part) (lent work) }
    ensures { Past (problem part.entry) (lent work.entry) (left work.exit) }
{
    let n = part.tets.len();
    let Work {
        marks,
        keep,
        centroids,
        cells,
        order,
        place,
        first,
    } = work;
    let mut filing = Filing {
        cells: &mut cells[..n],
        order: &mut order[..n],
        place: &mut place[..n],
        first: &mut first[..n + 1],
    };
    mark(
        part,
        &mut keep[..part.nodes.len()],
        &mut centroids[..n],
        &mut filing,
        &mut marks[..n],
    );
}
