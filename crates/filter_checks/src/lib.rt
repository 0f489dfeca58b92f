// What a build of the filter's table is refused for before any row. No surface of its own.
#![tactic(auto)]

ghost use Rattle.std.specs.Prelude.{◌≡◌, ◌∷◌};
ghost use Rattle.refusal.specs.Refusals.{refused};
ghost use Rattle.filter.specs.Build.{early};
ghost use Rattle.filter.specs.Lengths.{lengths};

use filter::work::{Input, WorkLengths};
use refusal::Refusal;

// What is refused before any row, in 01's order: of the lists only the lengths are looked at.
#[tactic(auto, unfolding(lists::specs::Lists::choose, lent::specs::Lent::short, filter::specs::Build::early))]
pub fn check(input: Input, starts: usize, work: WorkLengths) -> Result<(), Refusal>
    ensures { refused result ≡ early input.entry.centroids.now input.entry.volumes.now input.entry.radius input.entry.planes.now (starts ∷ lengths work) }
{
    let n = input.centroids.len();
    if input.volumes.len() != n {
        return Err(Refusal::CountsDiffer);
    }
    if n == 0 {
        return Err(Refusal::NoElements);
    }
    if n > 65535 {
        return Err(Refusal::TooMany);
    }
    if lent::volumes_bad(input.volumes) {
        return Err(Refusal::VolumeOutside);
    }
    if lent::radius_bad(input.radius) {
        return Err(Refusal::DistanceOutside);
    }
    if lent::points_bad(input.centroids) {
        return Err(Refusal::PointOutside);
    }
    filter_group::check(input.planes)?;
    if starts <= n || work.is_short(n) {
        return Err(Refusal::ListTooShort);
    }
    Ok(())
}
