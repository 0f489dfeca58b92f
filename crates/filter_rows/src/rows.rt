// All rows, one after the other, and where each starts.
ghost use Rattle.std.specs.Prelude.{◌≡◌, ◌<◌, length};
ghost use Rattle.refusal.specs.Refusals.{refused};
ghost use Rattle.filter.specs.Held.{SameTable};
ghost use Rattle.filter_look.specs.Steps.{SameMet};
ghost use Rattle.filter_row.specs.Row.{Clean};
ghost use Rattle.filter_rows.specs.Steps.{Filled};

use filter::work::TableMut;
use filter_group::Planes;
use filter_look::grid::Grid;
use filter_look::met::Met;
use refusal::Refusal;

// The first row that is refused ends it.
pub fn all_rows(
    g: &Grid,
    planes: Planes,
    volumes: &[f64],
    met: &mut Met,
    table: &mut TableMut,
) -> Result<(), Refusal>
    requires clean { Clean (length g.now.centroids.now) 0 met.old }
    requires volumed { length volumes.now ≡ length g.now.centroids.now }
    requires begun { length g.now.centroids.now < length table.old.starts.now }
    ensures same_met { SameMet met.old met.new }
    ensures same_table { SameTable table.old table.new }
    ensures filled { Filled g.now.centroids.now g.now.radius planes.entry.lent.now volumes.now table.old (refused result) table.new }
{
    table.starts[0] = 0;
    let mut at = 0;
    for e in 0..g.centroids.len() {
        at = filter_row::build_row(g, planes, volumes, e, at, met, table)?;
        table.starts[e + 1] = at as u32;
    }
    Ok(())
}
