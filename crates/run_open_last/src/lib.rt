// The turn of an opening, and its last step.
#![tactic(auto)]

ghost use Rattle.std.specs.Prelude.{◌≡◌, ◌<◌, ◌≤◌, length};
ghost use Rattle.filter.specs.Held.{working, SameWork};
ghost use Rattle.run_plain.specs.Calls.{in_turn};
ghost use Rattle.run_plain.specs.Held.{SameOpenFields};
ghost use Rattle.run_open_last.specs.Steps.{lists, Lastly};

use filter::work::Work;
use refusal::Refusal;
use run_plain::{Job, OpenFields, Phase, Reply, Returned, State};

// Whether no run is open.
pub fn in_turn(p: Phase) -> bool
    ensures { result ≡ in_turn p }
{
    matches!(p, Phase::Idle)
}

// The table is built, with so many entries: "Last it looks at the flag".
pub fn lastly(
    state: State,
    job: Job,
    entries: usize,
    fields: &mut OpenFields,
    work: &mut Work,
) -> Returned
    requires { (length job.volumes.now ≤ length fields.old.density.now) × (length job.passive.now ≤ length fields.old.design.now) }
    ensures last { Lastly job.entry.flag state job.entry.goal entries (lists job.entry fields.old) (working work.old) result (lists job.entry fields.new) (working work.new) }
    ensures same_fields { SameOpenFields fields.old fields.new }
    ensures same_work { SameWork work.old work.new }
{
    if job.flag {
        filter_wipe::wipe_work(work);
        return Returned {
            state: state.ended(),
            reply: Reply::Refused(Refusal::Stopped),
        };
    }
    let n = job.volumes.len();
    run_open_checks::begin(job, fields.design);
    run_open_checks::ask_solid(n, fields.density);
    Returned {
        state: run_open_checks::opened_state(job.goal, n, entries),
        reply: Reply::Solid,
    }
}
