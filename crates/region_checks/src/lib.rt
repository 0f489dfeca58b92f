// What every call with a boundary checks: counts, names of nodes, and the domain of nodes. No surface of its own: for `region_asymmetry` and `region_passive`.
#![tactic(auto)]

ghost use Rattle.std.specs.Prelude.{◌≡◌, ℕ};
ghost use Rattle.refusal.specs.Refusals.{refused_or};
ghost use Rattle.region_checks.specs.Boundary.{missing_in, any_missing, refusal_of};

use refusal::Refusal;

// Whether a triangle names a node that is not among the first n.
fn missing(n: usize, t: [u32; 6]) -> bool
    ensures { result ≡ missing_in n t }
{
    t.iter().any(|name| n <= *name as usize)
}

fn any_missing(n: usize, tris: &[[u32; 6]]) -> bool
    ensures { result ≡ any_missing n tris.now }
{
    tris.iter().any(|t| missing(n, *t))
}

// Refuses by 3, 21 or 9 where one of them is due; the caller's further checks come after these.
#[tactic(auto, unfolding(crate::specs::Boundary::refusal_of, lists::specs::Lists::choose))]
pub fn check(elements: usize, nodes: &[[f64; 3]], tris: &[[u32; 6]]) -> Result<(), Refusal>
    ensures { (rest : ℕ) → refusal_of elements nodes.now tris.now rest ≡ refused_or result rest }
{
    if (65535 < elements) | (65535 < tris.len()) | (1048576 < nodes.len()) {
        return Err(Refusal::TooMany);
    }
    if any_missing(nodes.len(), tris) {
        return Err(Refusal::NodeMissing);
    }
    if lent::points_bad(nodes) {
        return Err(Refusal::PointOutside);
    }
    Ok(())
}
