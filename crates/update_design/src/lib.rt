// The design at a rate, by the value that each element gets; and what an update asks of designs and gains.
#![tactic(auto)]

mod problem;

ghost use Rattle.std.specs.Prelude.{◌≡◌, length};
ghost use Rattle.update_design.specs.Design.{gains_of, most_of, same_design};

pub use problem::Problem;

#[tactic(auto, using(lists::proofs::Filled::stored), unfolding(lists::specs::Lists::overwrite))]
pub fn gains(dc: &[f64], dv: &[f64], gain: &mut [f64])
    requires { (length dv.now ≡ length dc.now) × (length gain.old ≡ length dc.now) }
    ensures { gain.new ≡ gains_of dc.now dv.now }
{
    for (i, g) in gain.iter_mut().enumerate() {
        *g = update_value::gain_of(dc[i], dv[i]);
    }
}

// The greatest gain of a free element.
#[tactic(auto, unfolding(crate::specs::Design::most_of, lists::specs::Lists::fold_to))]
pub fn most(gain: &[f64], passive: &[bool]) -> f64
    requires { length passive.now ≡ length gain.now }
    ensures { result ≡ most_of gain.now passive.now }
{
    let mut t = 0.0;
    for (i, g) in gain.iter().enumerate() {
        t = lists::either(passive[i], t, ieee::max(t, *g));
    }
    t
}

// Whether two designs are equal element by element.
#[tactic(auto, using(crate::proofs::Copied::same_lists))]
pub fn same(a: &[f64], b: &[f64]) -> bool
    requires { length b.now ≡ length a.now }
    ensures { result ≡ same_design a.now b.now }
{
    a == b
}
