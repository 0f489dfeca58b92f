// What the goal's share of the volume asks of a part: the volume to keep, how near, whether there is room, and the density to start at.
#![tactic(auto)]

ghost use Rattle.std.specs.Prelude.{◌≡◌};
ghost use Rattle.oc_goal.specs.Goal.{no_room, target_of, tolerance_of, start_density};

// How near each update brings the volume kept to the volume asked, as a share of the whole.
const VOLUME_TOLERANCE: f64 = 1e-10;

// Whether `solid` of a part's `total` volume, held solid, leaves no room to come down to `target`: with every other element at the least that
// the update gives one it would still keep as much.
pub fn no_room(solid: f64, total: f64, target: f64) -> bool
    ensures { result ≡ no_room solid total target }
{
    solid + topo::X_MIN * (total - solid) >= target
}

// The volume to keep.
pub fn target(fraction: f64, total: f64) -> f64
    ensures { result ≡ target_of fraction total }
{
    fraction * total
}

// How near an update has to come to the target.
pub fn tolerance(total: f64) -> f64
    ensures { result ≡ tolerance_of total }
{
    VOLUME_TOLERANCE * total
}

// The density that every free element starts at.
pub fn start_density(solid: f64, total: f64, target: f64) -> f64
    ensures { result ≡ start_density solid total target }
{
    (target - solid) / (total - solid)
}
