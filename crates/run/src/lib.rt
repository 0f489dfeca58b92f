// The loop of `optimize` as questions and answers: a run is opened, and then answered question by question. Each call states its outcome for
// every input.
#![tactic(auto)]

ghost use Rattle.filter.specs.Held.{working as open_working, SameTable, SameWork as SameOpenWork};
ghost use Rattle.run_plain.specs.Held.{asked, opened, SameOpenFields, core, working, SameFields, SameWork};
ghost use Rattle.run.specs.Run.{Opened, Answered};

use run_plain::{Elements, Fields, Heard, Job, OpenFields, Returned, State, Work};
use topo::Iteration;

// A run is opened on a job. The filter is built into its three lists, the design is the start's, and the densities are the solid part's. The history is only
// measured.
pub fn open(
    state: State,
    job: Job,
    table: &mut filter::work::TableMut,
    fields: &mut OpenFields,
    history: &mut [Iteration],
    work: &mut filter::work::Work,
) -> Returned
    ensures opened { Opened state (asked job.entry) (opened job.entry table.old fields.old) (open_working work.old) history.old
        result (opened job.entry table.new fields.new) (open_working work.new) history.new }
    ensures same_table { SameTable table.old table.new }
    ensures same_fields { SameOpenFields fields.old fields.new }
    ensures same_work { SameOpenWork work.old work.new }
{
    run_open::open_core(history.len(), state, job, table, fields, work)
}

// The solver's answer to the last question: what is heard of it, and the energies, one an element. The filter's table, the design and both densities are
// those that the last call left.
pub fn answer(
    state: State,
    heard: Heard,
    energies: &[f64],
    elements: Elements,
    fields: &mut Fields,
    history: &mut [Iteration],
    work: &mut Work,
) -> Returned
    ensures answered { Answered state (record { heard = heard; energies = energies.now }) (core elements.entry fields.old) (working work.old) history.old
        result (core elements.entry fields.new) (working work.new) history.new }
    ensures same_fields { SameFields fields.old fields.new }
    ensures same_work { SameWork work.old work.new }
{
    let room = history.len();
    let step = run_answer::answer_core(room, state, heard, energies, elements, fields, work);
    if let Some(record) = step.entry {
        run_answer::note(history, state.progress.rounds, record);
    }
    step.returned
}
