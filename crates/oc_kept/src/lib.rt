// The volume that a design keeps.
#![tactic(auto)]

ghost use Rattle.std.specs.Prelude.{◌≡◌, length, Some};
ghost use Rattle.std.specs.Option.{ForSome};
ghost use Rattle.filter_table.specs.Lent.{seen_through};
ghost use Rattle.filter_table.specs.Known.{IsOf};
ghost use Rattle.oc_seen.specs.Seen.{densities};
ghost use Rattle.oc_kept.specs.Lent.{kept_through};

use filter_table::{Table, WellFormed};
use oc_project::Projection;

#[derive(Clone, Copy)]
pub enum Rule {
    // the volume held solid, to which the design adds along the slope of the volume
    Straight(f64),
    // the steepness at which the densities are seen
    Sharpened(f64),
}

// The filter's product, without tests in its loop where the table is known to be well formed.
fn filtered(table: Table, formed: Option<WellFormed>, x: &[f64], out: &mut [f64])
    requires { ForSome formed (λ w. IsOf w table (length out.old) (length x.now)) }
    ensures { out.new ≡ seen_through table.entry x.now (length out.old) }
{
    match formed {
        Some(formed) => formed.apply(x, out),
        None => filter_apply::apply(table, x, out),
    }
}

// The filtered values in `density`, sharpened.
// Stays, here and below, that there is a density for each mark: the densities are lent to be written, the marks to be read.
#[tactic(auto, using(lists::proofs::Filled::stored, lists::proofs::Filled::unwritten), unfolding(lists::specs::Lists::overwrite, oc_seen::specs::Seen::element_density, oc_seen::specs::Seen::sharpened))]
fn sharpen(beta: f64, passive: &[bool], density: &mut [f64])
    requires { length density.old ≡ length passive.now }
    ensures { density.new ≡ densities (Some beta) passive.now density.old }
{
    let at = Projection::at(beta);
    for (i, held) in passive.iter().enumerate() {
        let p = at.project(ieee::clamp(density[i]));
        density[i] = lists::either(*held, 1.0, p.density);
    }
}

// `density` is for the call's own use.
// Stays eight parameters: each caller has another part of them in a struct of its own, and one for this call alone would be made at each.
pub fn kept(
    rule: Rule,
    straight: &[f64],
    table: Table,
    formed: Option<WellFormed>,
    volumes: &[f64],
    passive: &[bool],
    y: &[f64],
    density: &mut [f64],
) -> f64
    requires density_len { length density.old ≡ length passive.now }
    requires formed { ForSome formed (λ w. IsOf w table (length density.old) (length y.now)) }
    ensures { result ≡ kept_through table.entry rule straight.now volumes.now passive.now y.now }
{
    match rule {
        Rule::Straight(solid) => solid + oc_record::dot(straight, y),
        Rule::Sharpened(beta) => {
            filtered(table, formed, y, density);
            sharpen(beta, passive, density);
            oc_record::dot(volumes, &density[..])
        }
    }
}
