// Choices without a branch, a copy and a sum, against `specs/Lists.antt`.
#![tactic(auto)]

ghost use Rattle.std.specs.Prelude.{◌≡◌, length, get_or};
ghost use Rattle.std.specs.Float.{nan};
ghost use Rattle.lists.specs.Lists.{sum_to, choose};

#[tactic(auto, unfolding(crate::specs::Lists::choose))]
pub fn either<T: Copy>(test: bool, a: T, b: T) -> T
    ensures { result ≡ choose test a b }
{
    if test { a } else { b }
}

// The values of `from`, into a list as long.
// Stays a loop: the library's `copy_from_slice` would have an archive for C take `memmove` from outside.
pub fn copy<T: Copy>(from: &[T], to: &mut [T])
    requires { length to.old ≡ length from.now }
    ensures { to.new ≡ from.now }
{
    for i in 0..from.len() {
        to[i] = from[i];
    }
}

// The sum from the left, each addition rounded.
#[tactic(auto, unfolding(crate::specs::Lists::sum_to, crate::specs::Lists::fold_to))]
pub fn sum(a: &[f64]) -> f64
    ensures { result ≡ sum_to (λ k. get_or a.now k nan) (length a.now) }
{
    let mut t = 0.0;
    for x in a {
        t += *x;
    }
    t
}
