// The elements near a point: the columns of cubes about it, each a run of positions.
ghost use Rattle.std.specs.Prelude.{◌≡◌, length};
ghost use Rattle.filter.specs.Filter.{counts};
ghost use Rattle.filter_look.specs.Steps.{gained, Lists, Kept, Took};
ghost use Rattle.filter_meet.specs.Searches.{Ready, Done};
ghost use Rattle.filter_meet.specs.Laws.{search_laws};

use cells::{Block, Column};
use cells_walk::Walker;
use filter_look::grid::{Grid, Sight};
use filter_look::met::Met;
use geom::Vec3;

// Meets the elements that are nearer to q than the radius.
#[derive(Drop)]
struct Search<'a, 'b> {
    g: &'a Grid<'a>,
    q: Vec3,
    met: &'a mut Met<'b>,
}

impl Walker for Search<'_, '_> {
    ghost Ready = { Ready };

    ghost Done = { Done };

    ghost laws = { search_laws };

    fn column(&mut self, c: Column) {
        let g = self.g;
        let sight = Sight {
            radius: g.radius,
            limit: g.limit,
            cell: g.cell,
            order: g.order,
            sorted: g.sorted,
        };
        let run = c.span(g.first, g.buckets, g.cell.len());
        for k in run.start..run.end {
            filter_look::look(sight, self.q, c, k, self.met);
        }
    }
}

// Meets the elements that count for the image q.
pub fn around(g: &Grid, q: Vec3, met: &mut Met)
    requires { Lists (length g.now.cell.now) met.old }
    ensures kept { Kept met.old met.new }
    ensures found { met.new.found.now ≡ met.old.found.now }
    ensures took { Took (counts g.now.centroids.now g.now.radius q) (gained g.now.centroids.now g.now.radius q) met.old met.new }
{
    if g.extent.is_outside(g.radius, q) {
        return;
    }
    let cube = cells::cube_of(<[f64; 3]>::from(q), g.extent.lo, g.radius);
    cells_walk::walk(&mut Search { g, q, met }, Block::about(cube, cube));
}
