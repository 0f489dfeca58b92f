// What program `shape` prints of a job: the job is run, and its outcome written into a lent list.
#![tactic(auto)]

ghost use Rattle.std.specs.Prelude.{◌≡◌, length, take};
ghost use Rattle.filter.specs.Build.{work_lengths};
ghost use Rattle.filter.specs.Held.{working as open_working, SameWork as SameOpenWork};
ghost use Rattle.run_plain.specs.Calls.{replied};
ghost use Rattle.run_plain.specs.Held.{asked, working, lengths_of, SameWork};
ghost use Rattle.shape_job.specs.Held.{lists_in, SameLists};
ghost use Rattle.shape_job.specs.Job.{job_of};
ghost use Rattle.shape_report.specs.Report.{text_of};
ghost use Rattle.shape_report.specs.Steps.{Wrote};
ghost use Rattle.shape_text.specs.Printed.{outcome_by, outcome_of};

use refusal::Refusal;
use run_plain::{Fields, Job, Reply, Returned, Work};
use shape_job::Lists;
use topo::Iteration;

// The first n places of a list, or all where it has fewer.
fn front<T: Copy>(list: &[T], n: usize) -> &[T]
    ensures { result.now ≡ take n list.now }
{
    if n < list.len() { &list[..n] } else { list }
}

fn outcome(returned: Returned, fields: &Fields, history: &[Iteration], out: &mut [u8]) -> usize
    ensures { Wrote (text_of (outcome_by (replied returned.reply) returned.state history.now fields.now.last.now)) 0 out.old out.new result }
{
    let state = returned.state;
    let last = &*fields.last;
    match returned.reply {
        Reply::Refused(why) => shape_report::refused_for(out, why),
        Reply::Solid | Reply::Round(_) => shape_report::refused_for(out, Refusal::OutOfTurn),
        Reply::Stop(why) => shape_report::ran(
            out,
            state.compliances.solid,
            front(history, state.progress.rounds),
            why,
            front(last, state.setting.elements),
        ),
    }
}

// A job, run from its lists as `shape_job::run` has them.
pub fn text(
    job: Job,
    weights: &[f64],
    lists: &mut Lists,
    energies: &mut [f64],
    opening: &mut filter::work::Work,
    answers: &mut Work,
    out: &mut [u8],
) -> usize
    ensures wrote { Wrote (text_of (outcome_of (job_of weights.now (length energies.old) (work_lengths (open_working opening.old)) (lengths_of (working answers.old)) (asked job.entry) (lists_in job.entry lists.old))))
        0 out.old out.new result }
    ensures same_lists { SameLists lists.old lists.new }
    ensures same_opening { SameOpenWork opening.old opening.new }
    ensures same_answers { SameWork answers.old answers.new }
{
    let returned = shape_job::run(job, weights, lists, energies, opening, answers);
    let fields = &mut lists.fields;
    let history = &mut *lists.history;
    outcome(returned, fields, history, out)
}
