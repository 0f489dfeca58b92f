// The elements near a triangle: columns of cells, each a run of positions.
ghost use Rattle.std.specs.Prelude.{◌≡◌, true, ◌<◌, length, get_or, set};
ghost use Rattle.lists.specs.Lists.{choose};
ghost use Rattle.region_cells.specs.Steps.{seen_at};
ghost use Rattle.region_by_depth.specs.Searches.{Fits, Done};
ghost use Rattle.region_by_depth.specs.Laws.{search_laws};

use crate::middles::Middles;
use cells::Column;
use cells_walk::Walker;
use faces::Triangle;

// Looks at the element at position k: it is marked where it stands in a column and is near. One that is marked needs no look.
fn look(t: Triangle, limit: f64, k: usize, column: Column, middles: Middles, marks: &mut [bool])
    requires { (k < length middles.cells.now) × (get_or middles.order.now k 0 < length marks.old) }
    ensures { marks.new ≡ choose (seen_at t limit k column.x column.y column.z0 column.z1 middles.entry.centroids.now middles.entry.cells.now middles.entry.order.now) (set marks.old (get_or middles.entry.order.now k 0) true) marks.old }
{
    let i = middles.order[k] as usize;
    if marks[i] {
        return;
    }
    if column.holds(middles.cells[i]) {
        if region_cells::is_near(t, limit, middles.centroids[i]) {
            marks[i] = true;
        }
    }
}

// Marks the elements that are at most at the limit, a squared distance, from a triangle.
#[derive(Drop)]
pub struct Search<'a, 'b> {
    pub t: Triangle,
    pub limit: f64,
    pub middles: Middles<'a>,
    pub marks: &'b mut [bool],
}

impl Walker for Search<'_, '_> {
    ghost Ready = { Fits };

    ghost Done = { Done };

    ghost laws = { search_laws };

    fn column(&mut self, c: Column) {
        let middles = self.middles;
        let run = c.span(middles.first, middles.buckets, middles.cells.len());
        let t = self.t;
        let limit = self.limit;
        let marks = &mut *self.marks;
        for k in run.start..run.end {
            look(t, limit, k, c, middles, marks);
        }
    }
}
