// The core of an opening: every list but the history, of which only the length counts.
#![tactic(auto)]

ghost use Rattle.std.specs.Prelude.{◌≡◌, get_or};
ghost use Rattle.refusal.specs.Refusals.{refused};
ghost use Rattle.filter.specs.Held.{working, SameTable, SameWork};
ghost use Rattle.run_plain.specs.Opening.{first_refusal};
ghost use Rattle.run_plain.specs.Held.{asked, opened, SameOpenFields};
ghost use Rattle.run_open_checks.specs.Opens.{opening_in, CoreOpened};
ghost use Rattle.run_open.specs.Told.{told};

use filter::work::{Input, TableMut, Work};
use refusal::Refusal;
use run_open_checks::Lengths;
use run_plain::{Job, OpenFields, Reply, Returned, State};

// Where the last of n rows ends.
fn entries(n: usize, table: &TableMut) -> usize
    ensures { result ≡ get_or table.now.starts.now n 0 }
{
    table.starts.get(n).copied().unwrap_or(0) as usize
}

// What the job is refused with before the filter is built.
fn check(
    job: Job,
    table: &TableMut,
    fields: &OpenFields,
    room: usize,
    work: &Work,
) -> Result<(), Refusal>
    ensures { refused result ≡ first_refusal (opening_in (asked job.entry) room (opened job.entry table.now fields.now) (working work.now)) }
{
    run_open_checks::check(job, Lengths::of(table, fields, room, work))
}

// An opening, or why its job is turned back with the state as it came.
fn begin(
    room: usize,
    state: State,
    job: Job,
    table: &mut TableMut,
    fields: &mut OpenFields,
    work: &mut Work,
) -> Result<Returned, Refusal>
    ensures opened { CoreOpened state (asked job.entry) room (opened job.entry table.old fields.old) (working work.old)
        (told state result) (opened job.entry table.new fields.new) (working work.new) }
    ensures same_table { SameTable table.old table.new }
    ensures same_fields { SameOpenFields fields.old fields.new }
    ensures same_work { SameWork work.old work.new }
{
    if !run_open_last::in_turn(state.phase) {
        return Err(Refusal::OutOfTurn);
    }
    check(job, table, fields, room, work)?;
    let input = Input {
        centroids: job.centroids,
        volumes: job.volumes,
        radius: job.goal.radius,
        planes: job.mirrors,
    };
    filter_build::build(input, table, work)?;
    let entries = entries(job.volumes.len(), table);
    Ok(run_open_last::lastly(state, job, entries, fields, work))
}

// An opening, the history having room for so many records.
pub fn open_core(
    room: usize,
    state: State,
    job: Job,
    table: &mut TableMut,
    fields: &mut OpenFields,
    work: &mut Work,
) -> Returned
    ensures opened { CoreOpened state (asked job.entry) room (opened job.entry table.old fields.old) (working work.old)
        result (opened job.entry table.new fields.new) (working work.new) }
    ensures same_table { SameTable table.old table.new }
    ensures same_fields { SameOpenFields fields.old fields.new }
    ensures same_work { SameWork work.old work.new }
{
    match begin(room, state, job, table, fields, work) {
        Ok(returned) => returned,
        Err(refusal) => Returned {
            state,
            reply: Reply::Refused(refusal),
        },
    }
}
