// How the work of the loads and the volume kept go with each design value, through the sharpening and the filter in turn (`work_slope` and `volume_slope` of oc.rs).
#![tactic(auto)]

ghost use Rattle.std.specs.Prelude.{◌≡◌, length};
ghost use Rattle.oc_slopes.specs.Slopes.{element_work, work_by_density, volume_by_density};
ghost use Rattle.oc_slopes.specs.Lent.{work_slope_through, volume_slope_through, straight_slope_through};

use filter_table::Table;

// An element's stiffness goes with its density cubed; the energy that it holds was worked out at its level's stiffness.
#[tactic(auto, unfolding(crate::specs::Slopes::element_work))]
fn element_work(x: f64, s: f64, u: f64) -> f64
    ensures { result ≡ element_work x s u }
{
    let m = topo::modulus(topo::level_of(x), 1.0);
    -topo::PENALTY * (x * x) * (1.0 - topo::FLOOR) * 2.0 * u / m * s
}

#[tactic(auto, using(lists::proofs::Filled::stored), unfolding(lists::specs::Lists::overwrite))]
fn work_by_density(
    passive: &[bool],
    density: &[f64],
    slope: &[f64],
    energies: &[f64],
    out: &mut [f64],
)
    requires { (length density.now ≡ length passive.now) × (length slope.now ≡ length passive.now) × (length energies.now ≡ length passive.now) × (length out.old ≡ length passive.now) }
    ensures { out.new ≡ work_by_density passive.now density.now slope.now energies.now }
{
    for (i, o) in out.iter_mut().enumerate() {
        let w = element_work(density[i], slope[i], energies[i]);
        *o = lists::either(passive[i], 0.0, w);
    }
}

#[tactic(auto, using(lists::proofs::Filled::stored), unfolding(lists::specs::Lists::overwrite))]
fn volume_by_density(slope: &[f64], free: &[f64], out: &mut [f64])
    requires { (length free.now ≡ length slope.now) × (length out.old ≡ length slope.now) }
    ensures { out.new ≡ volume_by_density slope.now free.now }
{
    for (i, o) in out.iter_mut().enumerate() {
        *o = slope[i] * free[i];
    }
}

// How the work goes with the design. `by_density` is for the call's own use.
pub fn work_slope(
    table: Table,
    passive: &[bool],
    density: &[f64],
    slope: &[f64],
    energies: &[f64],
    by_density: &mut [f64],
    out: &mut [f64],
)
    requires density_len { (length density.now ≡ length passive.now) × (length slope.now ≡ length passive.now) × (length energies.now ≡ length passive.now) }
    requires by_density_len { (length by_density.old ≡ length passive.now) × (length out.old ≡ length passive.now) }
    ensures { out.new ≡ work_slope_through table.entry passive.now density.now slope.now energies.now }
{
    work_by_density(passive, density, slope, energies, by_density);
    filter_back::back(table, &by_density[..], out);
}

// How the volume goes with the design, `free` each element's volume where it is not held solid.
pub fn volume_slope(
    table: Table,
    slope: &[f64],
    free: &[f64],
    by_density: &mut [f64],
    out: &mut [f64],
)
    requires { (length free.now ≡ length slope.now) × (length by_density.old ≡ length slope.now) × (length out.old ≡ length slope.now) }
    ensures { out.new ≡ volume_slope_through table.entry slope.now free.now }
{
    volume_by_density(slope, free, by_density);
    filter_back::back(table, &by_density[..], out);
}

// Without sharpening the volume goes straight with the design: its slope is the same each round.
pub fn straight_slope(table: Table, free: &[f64], out: &mut [f64])
    requires { length out.old ≡ length free.now }
    ensures { out.new ≡ straight_slope_through table.entry free.now }
{
    filter_back::back(table, free, out);
}
