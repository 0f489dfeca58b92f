// Which elements must stay solid (region.rs, `passive`): those under a support or a load, and those of kept sets of surfaces, to a depth. Held and loaded
// nodes are given by number; set s has the surfaces kept[starts[s]] .. kept[starts[s + 1] - 1] and the depth depths[s], which is none where it is not
// finite or not above 0.
#![tactic(auto)]

mod stages;

ghost use Rattle.refusal.specs.Refusals.{refused};
ghost use Rattle.region_passive.specs.Passive.{Marked};
ghost use Rattle.region_passive.specs.Held.{problem, lent, left};

use refusal::Refusal;
use region_passive_checks::{Part, Room, Work};

// Marks the elements, or refuses.
pub fn passive(part: Part, work: Work) -> Result<(), Refusal>
    ensures { Marked (problem part.entry) (lent work.entry) (left work.exit) (refused result) }
{
    let Work {
        marks,
        keep,
        centroids,
        cells,
        order,
        place,
        first,
    } = work;
    let room = Room {
        marks: marks.len(),
        keep: keep.len(),
        centroids: centroids.len(),
        cells: cells.len(),
        order: order.len(),
        place: place.len(),
        first: first.len(),
    };
    region_passive_checks::check(part, room)?;
    // Stays a new struct: of the one that came, passed on whole, the proof did not know what its lists hold at the end.
    let work = Work {
        marks,
        keep,
        centroids,
        cells,
        order,
        place,
        first,
    };
    crate::stages::mark_front(part, work);
    Ok(())
}
