// What an opening is refused with before the filter is built, in 01's order; and what it begins with.
#![tactic(auto)]

ghost use Rattle.std.specs.Prelude.{◌≡◌, ◌++◌, ◌≤◌, length, drop, replicate};
ghost use Rattle.ieee.specs.Basic.{one64};
ghost use Rattle.refusal.specs.Refusals.{refused};
ghost use Rattle.filter.specs.Build.{work_lengths};
ghost use Rattle.filter.specs.Held.{working};
ghost use Rattle.oc_start.specs.Start.{solid_volume, start_design};
ghost use Rattle.oc_goal.specs.Goal.{target_of, start_density};
ghost use Rattle.run_plain.specs.Lent.{open_short};
ghost use Rattle.run_plain.specs.Formulas.{sum_of};
ghost use Rattle.run_plain.specs.Opening.{fraction_bad, first_refusal};
ghost use Rattle.run_plain.specs.Calls.{opened_state, sizes_in};
ghost use Rattle.run_plain.specs.Held.{opened};
ghost use Rattle.run_open_checks.specs.Asked.{sizes, opening};

use filter::work::{TableMut, Work, WorkLengths};
use refusal::Refusal;
use run_plain::{Compliances, Job, OpenFields, Phase, Progress, Setting, State};
use topo::Goal;

fn fraction_bad(f: f64) -> bool
    ensures { result ≡ fraction_bad f }
{
    !((f > 0.0) & (f < 1.0))
}

// How long each list of an opening is but the job's, `history` the records that there is room for.
#[derive(Clone, Copy)]
pub struct Lengths {
    pub starts: usize,
    pub near: usize,
    pub coef: usize,
    pub design: usize,
    pub density: usize,
    pub last: usize,
    pub history: usize,
    pub work: WorkLengths,
}

impl Lengths {
    // Those of lists that are held, the history having room for so many records.
    pub fn of(table: &TableMut, fields: &OpenFields, room: usize, work: &Work) -> Lengths
        ensures { (job : Job) → sizes job result ≡ sizes_in (work_lengths (working work.now)) (opened job table.now fields.now) room }
    {
        Lengths {
            starts: table.starts.len(),
            near: table.near.len(),
            coef: table.coef.len(),
            design: fields.design.len(),
            density: fields.density.len(),
            last: fields.last.len(),
            history: room,
            work: WorkLengths::of(work),
        }
    }
}

// Whether a list is lent too short.
#[tactic(auto, unfolding(run_plain::specs::Lent::open_short, run_plain::specs::Lent::run_short, lent::specs::Lent::short))]
fn too_short(job: Job, k: Lengths) -> bool
    ensures { result ≡ open_short (length job.entry.volumes.now) job.entry.goal.max_iterations (sizes job.entry k) }
{
    let n = job.volumes.len();
    (k.starts <= n)
        | (k.design < n)
        | (k.density < n)
        | (k.last < n)
        | (k.history < job.goal.max_iterations)
        | k.work.is_short(n)
}

// The table's `near` and `coef` are looked at row by row, and the flag last.
#[tactic(auto, unfolding(run_plain::specs::Opening::first_refusal, run_plain::specs::Formulas::sum_of, lists::specs::Lists::choose))]
pub fn check(job: Job, lengths: Lengths) -> Result<(), Refusal>
    ensures { refused result ≡ first_refusal (opening job.entry lengths) }
{
    let n = job.volumes.len();
    if (job.centroids.len() != n) | (job.passive.len() != n) {
        return Err(Refusal::CountsDiffer);
    }
    if n == 0 {
        return Err(Refusal::NoElements);
    }
    if 65535 < n {
        return Err(Refusal::TooMany);
    }
    if lent::volumes_bad(job.volumes) {
        return Err(Refusal::VolumeOutside);
    }
    if fraction_bad(job.goal.fraction) {
        return Err(Refusal::ShareOutside);
    }
    if job.goal.max_iterations == 0 {
        return Err(Refusal::NoRounds);
    }
    let total = lists::sum(job.volumes);
    let solid = oc_start::solid_volume(job.volumes, job.passive);
    if oc_goal::no_room(solid, total, oc_goal::target(job.goal.fraction, total)) {
        return Err(Refusal::NoRoom);
    }
    if lent::radius_bad(job.goal.radius) {
        return Err(Refusal::DistanceOutside);
    }
    if lent::points_bad(job.centroids) {
        return Err(Refusal::PointOutside);
    }
    filter_group::check(job.mirrors)?;
    if too_short(job, lengths) {
        return Err(Refusal::ListTooShort);
    }
    Ok(())
}

// The solid question's densities, 1 for each of n elements.
pub fn ask_solid(n: usize, density: &mut [f64])
    requires { n ≤ length density.old }
    ensures { density.new ≡ replicate n one64 ++ drop n density.old }
{
    density[..n].fill(1.0);
}

// The first design, on the needed places.
#[tactic(auto, unfolding(run_plain::specs::Formulas::sum_of))]
pub fn begin(job: Job, design: &mut [f64])
    requires { length job.passive.now ≤ length design.old }
    ensures { let total = sum_of job.entry.volumes.now in let passive = job.entry.passive.now in
        design.new ≡ start_design passive (start_density (solid_volume job.entry.volumes.now passive) total (target_of job.entry.goal.fraction total)) ++ drop (length passive) design.old }
{
    let n = job.passive.len();
    let total = lists::sum(job.volumes);
    let solid = oc_start::solid_volume(job.volumes, job.passive);
    let target = oc_goal::target(job.goal.fraction, total);
    let start = oc_goal::start_density(solid, total, target);
    oc_start::start_design(job.passive, start, &mut design[..n]);
}

// The state of a run that is opened: it asks for the solid part.
pub fn opened_state(goal: Goal, elements: usize, entries: usize) -> State
    ensures { result ≡ opened_state goal elements entries }
{
    State {
        phase: Phase::Solid,
        setting: Setting {
            elements,
            entries,
            fraction: goal.fraction,
            sharpen: goal.sharpen,
            max_iterations: goal.max_iterations,
        },
        progress: Progress {
            rounds: 0,
            stage: 0,
            at_stage: 0,
            steady: 0,
        },
        compliances: Compliances {
            solid: 0.0,
            last: 0.0,
        },
    }
}
