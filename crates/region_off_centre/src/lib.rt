// How far points reach to each side of a plane, where they are off its middle (region.rs, `off_centre`).
#![tactic(auto)]

ghost use Rattle.std.specs.Prelude.{◌≡◌};
ghost use Rattle.geom.specs.Points.{flat};
ghost use Rattle.refusal.specs.Refusals.{refused, numbered};
ghost use Rattle.lent.specs.Domain.{plane_bad};
ghost use Rattle.region_off_centre.specs.OffCentre as Centre;

use geom::{Mirror, Vec3};
use refusal::Refusal;

// How far points reach to the side that a plane's normal looks to, and to the other.
#[derive(Clone, Copy)]
pub struct Reaches {
    pub ahead: f64,
    pub behind: f64,
}

// Whether a plane is refused. Internal: for `region_asymmetry` too.
pub fn plane_bad(m: Mirror) -> bool
    ensures { result ≡ plane_bad (flat m) }
{
    lent::plane_bad(m.into())
}

#[tactic(auto, unfolding(crate::specs::OffCentre::refusal_of, lists::specs::Lists::choose))]
fn check(points: &[[f64; 3]], mirror: Mirror) -> Result<(), Refusal>
    ensures { refused result ≡ Centre.refusal_of points.now mirror }
{
    if 1048576 < points.len() {
        return Err(Refusal::TooMany);
    }
    if lent::points_bad(points) {
        return Err(Refusal::PointOutside);
    }
    if plane_bad(mirror) {
        return Err(Refusal::PlaneOutside);
    }
    Ok(())
}

// How far a point is from the plane, along its normal as it is given.
#[tactic(auto, unfolding(crate::specs::OffCentre::reach_of))]
fn reach(mirror: Mirror, p: Vec3) -> f64
    ensures { result ≡ Centre.reach_of mirror p }
{
    let point = mirror.point;
    let normal = mirror.normal;
    p.sub(point).dot(normal)
}

#[tactic(auto, unfolding(crate::specs::OffCentre::balance_of, lists::specs::Lists::choose))]
fn weigh(lo: f64, hi: f64) -> Option<Reaches>
    ensures { result ≡ Centre.balance_of lo hi }
{
    if (hi >= lo) & (ieee::abs(hi + lo) / 2.0 > 0.1 * (hi - lo)) {
        return Some(Reaches {
            ahead: ieee::max(hi, 0.0),
            behind: ieee::max(-lo, 0.0),
        });
    }
    None
}

// None where the points are about even, or there are none.
#[tactic(auto, using(refusal::proofs::Numbers::some_number), unfolding(crate::specs::OffCentre::off_centre_of, crate::specs::OffCentre::lowest, crate::specs::OffCentre::highest, lists::specs::Lists::choose, lists::specs::Lists::fold_to))]
pub fn off_centre(points: &[[f64; 3]], mirror: Mirror) -> Result<Option<Reaches>, Refusal>
    ensures { numbered result ≡ Centre.off_centre_of points.now mirror }
{
    check(points, mirror)?;
    let mut lo = f64::INFINITY;
    let mut hi = f64::NEG_INFINITY;
    for p in points {
        let d = reach(mirror, Vec3::from(*p));
        lo = ieee::min(lo, d);
        hi = ieee::max(hi, d);
    }
    Ok(weigh(lo, hi))
}
