// The core of an answer: every list but the history, whose record is returned.
#![tactic(auto)]

mod fronts;

ghost use Rattle.std.specs.Prelude.{◌≡◌, set, None};
ghost use Rattle.run_plain.specs.Held.{core, working, SameFields, SameWork};
ghost use Rattle.run_course.specs.Fit.{Fit};
ghost use Rattle.run_answer.specs.Answers.{verdict_in, CoreAnswered};
ghost use Rattle.run_answer.specs.Steps.{Asks, Enough, Begun, Followed};

use run_plain::{Elements, Fields, Heard, Reply, Returned, State, Verdict, Work};
use run_verdict::Lengths;
use topo::{Iteration, Stop};

// What an answer returns, with the record that it makes: its place in the history is the number of those that stood before.
#[derive(Clone, Copy)]
pub struct Step {
    pub returned: Returned,
    pub entry: Option<Iteration>,
}

// An answer that makes no record.
fn unrecorded(state: State, reply: Reply) -> Step
    ensures { (result.returned.state ≡ state) × (result.returned.reply ≡ reply) × (result.entry ≡ None) }
{
    Step {
        returned: Returned { state, reply },
        entry: None,
    }
}

// What the answer comes to, by the lengths of its lists.
fn verdict(
    room: usize,
    state: State,
    heard: Heard,
    energies: &[f64],
    elements: Elements,
    fields: &Fields,
    work: &Work,
) -> Verdict
    ensures { result ≡ verdict_in state (record { heard = heard; energies = energies.now }) room (core elements.entry fields.now) (working work.now) }
{
    let lengths = Lengths::of(elements, fields, room, work);
    run_verdict::verdict(state, heard, energies, lengths)
}

// The solid part is solved: round 1 is asked for.
fn begins(
    state: State,
    energies: &[f64],
    elements: Elements,
    fields: &mut Fields,
    work: &mut Work,
) -> Step
    requires { Enough state energies.now (core elements fields.old) (working work.old) }
    ensures begun { Begun state energies.now (core elements.entry fields.old) (working work.old) result (core elements.entry fields.new) (working work.new) }
    ensures same_fields { SameFields fields.old fields.new }
    ensures same_work { SameWork work.old work.new }
{
    fronts::ask(state, elements, fields, work.slope);
    let s = run_course::first_state(state, oc_record::compliance(energies));
    unrecorded(s, Reply::Round(1))
}

// A round is solved and recorded: the first stop that applies ends the run, or the next round is asked for.
fn solves(
    state: State,
    heard: Heard,
    energies: &[f64],
    elements: Elements,
    fields: &mut Fields,
    work: &mut Work,
) -> Step
    requires enough { Enough state energies.now (core elements fields.old) (working work.old) }
    requires fit { Fit state }
    ensures followed { Followed state (record { heard = heard; energies = energies.now }) (core elements.entry fields.old) (working work.old) result (core elements.entry fields.new) (working work.new) }
    ensures same_fields { SameFields fields.old fields.new }
    ensures same_work { SameWork work.old work.new }
{
    let entry = fronts::solve(
        state,
        energies,
        elements,
        Fields {
            design: &mut *fields.design,
            density: &mut *fields.density,
            last: &mut *fields.last,
        },
        Work {
            free: &mut *work.free,
            slope: &mut *work.slope,
            spare: &mut *work.spare,
            dc: &mut *work.dc,
            dv: &mut *work.dv,
        },
    );
    match run_course::course(state, heard, entry) {
        Some(why) => Step {
            returned: Returned {
                state: run_course::recorded_state(state, entry),
                reply: Reply::Stop(why),
            },
            entry: Some(entry),
        },
        None => {
            let next = run_course::onward_state(state, entry);
            fronts::ask(next, elements, fields, work.slope);
            Step {
                returned: Returned {
                    state: next,
                    reply: Reply::Round(run_course::next_round(state)),
                },
                entry: Some(entry),
            }
        }
    }
}

// An answer, the history having room for so many records.
pub fn answer_core(
    room: usize,
    state: State,
    heard: Heard,
    energies: &[f64],
    elements: Elements,
    fields: &mut Fields,
    work: &mut Work,
) -> Step
    ensures answered { CoreAnswered state (record { heard = heard; energies = energies.now }) room (core elements.entry fields.old) (working work.old)
        result (core elements.entry fields.new) (working work.new) }
    ensures same_fields { SameFields fields.old fields.new }
    ensures same_work { SameWork work.old work.new }
{
    match verdict(room, state, heard, energies, elements, &*fields, &*work) {
        Verdict::Kept(r) => unrecorded(state, Reply::Refused(r)),
        Verdict::Over(r) => unrecorded(state.ended(), Reply::Refused(r)),
        Verdict::Halts => unrecorded(state.ended(), Reply::Stop(Stop::Stopped)),
        Verdict::Begins => begins(state, energies, elements, fields, work),
        Verdict::Solves => solves(state, heard, energies, elements, fields, work),
    }
}

// Writes the record at its place, and nothing where that is past the end.
pub fn note(history: &mut [Iteration], at: usize, r: Iteration)
    ensures { history.new ≡ set history.old at r }
{
    if at < history.len() {
        history[at] = r;
    }
}
