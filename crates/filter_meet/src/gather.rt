// The elements that a row meets, under each member of the group in turn.
ghost use Rattle.std.specs.Prelude.{◌≡◌, ◌<◌, length};
ghost use Rattle.filter_group.specs.Group.{members};
ghost use Rattle.filter_look.specs.Steps.{Lists, Kept, Gathered};

use filter_group::Planes;
use filter_look::grid::Grid;
use filter_look::met::Met;
use geom::Vec3;

// Meets the elements of row e.
pub fn gather(g: &Grid, planes: Planes, e: usize, met: &mut Met)
    requires there { e < length g.now.centroids.now }
    requires lists { Lists (length g.now.cell.now) met.old }
    requires gathered { Gathered g.now.centroids.now g.now.radius planes.lent.now e 0 met.old }
    ensures kept { Kept met.old met.new }
    ensures found { met.new.found.now ≡ met.old.found.now }
    ensures lists_2 { Lists (length g.now.cell.now) met.new }
    ensures gathered_2 { Gathered g.now.centroids.now g.now.radius planes.entry.lent.now e (members planes.entry.lent.now) met.new }
{
    let middle = Vec3::from(g.centroids[e]);
    let end = 1 << planes.lent.len();
    for k in 0..end {
        let q = filter_group::image_of(k, planes.units, middle);
        crate::walk::around(g, q, met);
    }
}
