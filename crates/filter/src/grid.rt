// The middles' box, and a limit that settles most distances without a root.
ghost use Rattle.std.specs.Prelude.{◌≡◌, ◌<◌, length};
ghost use Rattle.filter.specs.Filter.{lowest, highest, outside};
ghost use Rattle.filter.specs.Steps.{Settles};

use geom::Vec3;

// The middles' box, by its lower and its upper corner.
#[derive(Clone, Copy)]
pub struct Extent {
    pub lo: Vec3,
    pub hi: Vec3,
}

impl Extent {
    pub fn of(centroids: &[[f64; 3]]) -> Extent
        requires { 0 < length centroids.now }
        ensures lo { result.lo ≡ lowest centroids.now }
        ensures hi { result.hi ≡ highest centroids.now }
    {
        let mut lo = Vec3::from(centroids[0]);
        let mut hi = lo;
        for i in 1..centroids.len() {
            let p = Vec3::from(centroids[i]);
            lo = lo.min(p);
            hi = hi.max(p);
        }
        Extent { lo, hi }
    }

    // Whether a point is farther than one radius from the box.
    #[tactic(auto, unfolding(crate::specs::Filter::outside))]
    pub fn is_outside(self, radius: f64, q: Vec3) -> bool
        ensures { result ≡ outside self.lo self.hi radius q }
    {
        let lo = self.lo;
        let hi = self.hi;
        (q.x < lo.x - radius)
            | (q.y < lo.y - radius)
            | (q.z < lo.z - radius)
            | (q.x > hi.x + radius)
            | (q.y > hi.y + radius)
            | (q.z > hi.z + radius)
    }
}

// A squared distance from which on the distance is not below the radius: the radius squared where its own root says so, else infinity.
pub fn limit_of(radius: f64) -> f64
    ensures { Settles radius result }
{
    let l = radius * radius;
    if ieee_root::sqrt(l) >= radius {
        l
    } else {
        f64::INFINITY
    }
}
