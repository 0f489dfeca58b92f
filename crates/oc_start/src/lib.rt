// Where a run starts: the volume held solid, each element's free volume and the first design. A function that writes a list asks that those it reads are
// as long; one that only reads goes as far as the shortest, as Rust's `zip` does.
#![tactic(auto)]

ghost use Rattle.std.specs.Prelude.{◌≡◌, length};
ghost use Rattle.oc_start.specs.Start.{solid_volume, free_volumes, start_design};

// The volume held solid.
#[tactic(auto, unfolding(lists::specs::Lists::fold_to, crate::specs::Start::solid_volume))]
pub fn solid_volume(volumes: &[f64], passive: &[bool]) -> f64
    ensures { result ≡ solid_volume volumes.now passive.now }
{
    let mut t = 0.0;
    for i in 0..volumes.len().min(passive.len()) {
        t = lists::either(passive[i], t + volumes[i], t);
    }
    t
}

// Each element's volume where it is not held solid, and 0 where it is.
#[tactic(auto, using(lists::proofs::Filled::stored), unfolding(lists::specs::Lists::overwrite))]
pub fn free_volumes(volumes: &[f64], passive: &[bool], free: &mut [f64])
    requires { (length volumes.now ≡ length free.old) × (length passive.now ≡ length free.old) }
    ensures { free.new ≡ free_volumes volumes.now passive.now }
{
    for (i, v) in free.iter_mut().enumerate() {
        *v = lists::either(passive[i], 0.0, volumes[i]);
    }
}

// The first design: 1 where held solid.
#[tactic(auto, using(lists::proofs::Filled::stored), unfolding(lists::specs::Lists::overwrite))]
pub fn start_design(passive: &[bool], start: f64, design: &mut [f64])
    requires { length passive.now ≡ length design.old }
    ensures { design.new ≡ start_design passive.now start }
{
    for (i, x) in design.iter_mut().enumerate() {
        *x = lists::either(passive[i], 1.0, start);
    }
}
