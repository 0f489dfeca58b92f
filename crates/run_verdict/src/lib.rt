// What an answer comes to: 01's order of its checks.
#![tactic(auto)]

ghost use Rattle.std.specs.Prelude.{◌≡◌, ℕ};
ghost use Rattle.lists.specs.Lists.{choose};
ghost use Rattle.run_plain.specs.Lent.{answer_short};
ghost use Rattle.run_plain.specs.Formulas.{not_finite, idle as idle_of};
ghost use Rattle.run_plain.specs.Plain.{judged, Part};
ghost use Rattle.run_plain.specs.Calls.{in_range, sound, part_of, checks_at, sizes_in};
ghost use Rattle.run_plain.specs.Held.{core, working, lengths_of};
ghost use Rattle.run_verdict.specs.Sizes.{sizes};

use refusal::Refusal;
use run_plain::{Checks, Elements, Fields, Heard, Phase, Said, Setting, State, Verdict, Work};

#[tactic(auto, unfolding(run_plain::specs::Formulas::not_finite, lists::specs::Lists::any_to))]
fn not_finite(energies: &[f64]) -> bool
    ensures { result ≡ not_finite energies.now }
{
    let mut t = false;
    for u in energies {
        t = t | !ieee::is_finite(*u);
    }
    t
}

#[tactic(auto, unfolding(run_plain::specs::Formulas::idle))]
fn idle(compliance: f64) -> bool
    ensures { result ≡ idle_of compliance }
{
    !(compliance > 0.0)
}

// 20's test of a state's numbers.
#[tactic(auto, unfolding(run_plain::specs::Calls::in_range))]
fn in_range(state: State) -> bool
    ensures { result ≡ in_range state }
{
    (state.progress.stage <= 4)
        & (state.progress.at_stage < 20)
        & (state.progress.steady < 5)
        & (state.setting.elements <= 65535)
}

// The same with the rounds: the solid part comes before any, and a round only where one is left.
#[tactic(auto, unfolding(run_plain::specs::Calls::sound))]
fn sound(state: State) -> bool
    ensures { result ≡ sound state }
{
    match state.phase {
        Phase::Idle => true,
        Phase::Solid => in_range(state) & (state.progress.rounds == 0),
        Phase::Round => in_range(state) & (state.progress.rounds < state.setting.max_iterations),
    }
}

// How long each list of an answer is but the energies', `history` the records that there is room for.
#[derive(Clone, Copy)]
pub struct Lengths {
    pub volumes: usize,
    pub passive: usize,
    pub starts: usize,
    pub near: usize,
    pub coef: usize,
    pub design: usize,
    pub density: usize,
    pub last: usize,
    pub history: usize,
    pub free: usize,
    pub slope: usize,
    pub spare: usize,
    pub dc: usize,
    pub dv: usize,
}

impl Lengths {
    // Those of lists that are held, the history having room for so many records.
    pub fn of(elements: Elements, fields: &Fields, room: usize, work: &Work) -> Lengths
        ensures { sizes result ≡ sizes_in (lengths_of (working work.now)) (core elements.entry fields.now) room }
    {
        Lengths {
            volumes: elements.volumes.len(),
            passive: elements.passive.len(),
            starts: elements.table.starts.len(),
            near: elements.table.near.len(),
            coef: elements.table.coef.len(),
            design: fields.design.len(),
            density: fields.density.len(),
            last: fields.last.len(),
            history: room,
            free: work.free.len(),
            slope: work.slope.len(),
            spare: work.spare.len(),
            dc: work.dc.len(),
            dv: work.dv.len(),
        }
    }
}

// Whether a list is lent too short.
#[tactic(auto, unfolding(run_plain::specs::Lent::answer_short, run_plain::specs::Lent::run_short, lent::specs::Lent::short))]
fn too_short(setting: Setting, k: Lengths) -> bool
    ensures { result ≡ answer_short setting.elements setting.entries setting.max_iterations (sizes k) }
{
    let n = setting.elements;
    let entries = setting.entries;
    (k.starts <= n)
        | (k.design < n)
        | (k.density < n)
        | (k.last < n)
        | (k.history < setting.max_iterations)
        | (k.volumes < n)
        | (k.passive < n)
        | (k.near < entries)
        | (k.coef < entries)
        | (k.free < n)
        | (k.slope < n)
        | (k.spare < n)
        | (k.dc < n)
        | (k.dv < n)
}

// What an answer to the solid part, or to a round, comes to.
#[tactic(auto, unfolding(run_plain::specs::Plain::judged, lists::specs::Lists::choose))]
fn judged(solid: bool, c: Checks) -> Verdict
    ensures { (n : ℕ) → result ≡ judged (choose solid Part.solid (Part.round n)) c }
{
    if c.short {
        return Verdict::Kept(Refusal::ListTooShort);
    }
    match c.said {
        Said::Halted if !solid & c.stands => Verdict::Halts,
        Said::Halted => Verdict::Over(Refusal::Stopped),
        Said::Failed => Verdict::Over(Refusal::SolverFailed),
        Said::Gave if c.count => Verdict::Over(Refusal::EnergiesDiffer),
        Said::Gave if c.bad => Verdict::Over(Refusal::EnergyNotFinite),
        Said::Gave if !solid => Verdict::Solves,
        Said::Gave if c.idle => Verdict::Over(Refusal::NoWork),
        Said::Gave if c.flag => Verdict::Over(Refusal::Stopped),
        Said::Gave => Verdict::Begins,
    }
}

// What an answer is looked at for.
#[tactic(auto, unfolding(run_plain::specs::Calls::checks_at))]
fn checks(state: State, heard: Heard, energies: &[f64], lengths: Lengths) -> Checks
    ensures { result ≡ checks_at state (record { heard = heard; energies = energies.now }) (sizes lengths) }
{
    Checks {
        short: too_short(state.setting, lengths),
        said: heard.said,
        stands: 0 < state.progress.rounds,
        count: energies.len() != state.setting.elements,
        bad: not_finite(energies),
        idle: idle(oc_record::compliance(energies)),
        flag: heard.flag,
    }
}

// What an answer comes to; of every list but the energies only the length is looked at.
#[tactic(auto, unfolding(run_plain::specs::Plain::judged, run_plain::specs::Calls::part_of, lists::specs::Lists::choose))]
pub fn verdict(state: State, heard: Heard, energies: &[f64], lengths: Lengths) -> Verdict
    ensures { result ≡ judged (part_of state) (checks_at state (record { heard = heard; energies = energies.now }) (sizes lengths)) }
{
    if !sound(state) {
        return Verdict::Kept(Refusal::OutOfTurn);
    }
    match state.phase {
        Phase::Idle => Verdict::Kept(Refusal::OutOfTurn),
        Phase::Solid => judged(true, checks(state, heard, energies, lengths)),
        Phase::Round => judged(false, checks(state, heard, energies, lengths)),
    }
}
