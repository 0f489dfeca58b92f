// What the optimiser works on: each element's volume and middle (region.rs, `design`).
#![tactic(auto)]

ghost use Rattle.std.specs.Prelude.{◌≡◌};
ghost use Rattle.refusal.specs.Refusals.{refused};
ghost use Rattle.region_design.specs.Design.{design_refusal, Designed};

use refusal::Refusal;

#[tactic(auto, unfolding(crate::specs::Design::design_refusal, lists::specs::Lists::choose))]
fn check(
    nodes: &[[f64; 3]],
    tets: &[[u32; 10]],
    volumes: usize,
    centroids: usize,
) -> Result<(), Refusal>
    ensures { refused result ≡ design_refusal nodes.now tets.now volumes centroids }
{
    if (65535 < tets.len()) | (1048576 < nodes.len()) {
        return Err(Refusal::TooMany);
    }
    if lent::points_bad(nodes) {
        return Err(Refusal::PointOutside);
    }
    if (volumes < tets.len()) | (centroids < tets.len()) {
        return Err(Refusal::ListTooShort);
    }
    Ok(())
}

// Fills in each tetrahedron's volume and middle. Marks are the caller's own list and stay as they are.
#[tactic(auto, using(lists::proofs::Filled::stored, crate::proofs::Accepted::volumes_fit, crate::proofs::Accepted::centroids_fit, crate::proofs::Accepted::left), unfolding(lent::specs::Lent::unless, lists::specs::Lists::overwrite))]
pub fn design(
    nodes: &[[f64; 3]],
    tets: &[[u32; 10]],
    volumes: &mut [f64],
    centroids: &mut [[f64; 3]],
) -> Result<(), Refusal>
    ensures { Designed nodes.now tets.now volumes.old volumes.new centroids.old centroids.new (refused result) }
{
    check(nodes, tets, volumes.len(), centroids.len())?;
    for (i, tet) in tets.iter().enumerate() {
        volumes[i] = mesh::volume(nodes, *tet);
        centroids[i] = mesh::centroid(nodes, *tet).into();
    }
    Ok(())
}
