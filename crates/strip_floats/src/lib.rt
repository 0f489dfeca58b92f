// Bit patterns as floats: a strip's numbers become floats when its job is run.
#![tactic(auto)]

ghost use Rattle.std.specs.Prelude.{◌≡◌, ◌≤◌, length, get_or, []};
ghost use Rattle.lists.specs.Lists.{overwrite};
ghost use Rattle.strip_floats.specs.Floats.{float_at, floats_of};

#[tactic(auto, using(lists::proofs::Filled::stored), unfolding(lists::specs::Lists::overwrite))]
pub fn numbers(from: &[u64], n: usize, to: &mut [f64])
    requires { (n ≤ length from.now) × (n ≤ length to.old) }
    ensures { to.new ≡ overwrite (float_at from.now) n to.old }
{
    for i in 0..n {
        to[i] = ieee_bits::from_bits(from[i]);
    }
}

// The numbers of a point, or of a plane's point and normal.
#[tactic(auto, unfolding(lists::specs::Lists::overwrite))]
fn floats<const N: usize>(bits: [u64; N]) -> [f64; N]
    ensures { result ≡ floats_of N bits.entry }
{
    let mut numbers = [0.0; N];
    for (i, number) in numbers.iter_mut().enumerate() {
        *number = ieee_bits::from_bits(bits[i]);
    }
    numbers
}

#[tactic(auto, using(lists::proofs::Filled::stored), unfolding(lists::specs::Lists::overwrite))]
pub fn rows<const N: usize>(from: &[[u64; N]], n: usize, to: &mut [[f64; N]])
    requires { (n ≤ length from.now) × (n ≤ length to.old) }
    ensures { to.new ≡ overwrite (λ i. floats_of N (get_or from.now i [])) n to.old }
{
    for i in 0..n {
        let row = floats(from[i]);
        to[i] = row;
    }
}
