// One case of a whole run, of 8 elements: volumes, middles, marks, the planes, the goal, and what the opening replied; then for each question the levels
// asked for, the solver's answer, the record that was made and the reply; and of a run that stopped the solid part's work and the densities.
ghost use Rattle.filter.specs.Held.{SameTable};
ghost use Rattle.run_plain.specs.Held.{SameOpenFields, SameFields};

use filter::work::TableMut;
use filter_table::Table;
use replay_sample::read::{Recorded, are, fill};
use replay_sample::words::{number, same, word};
use run_plain::{Elements, Fields, Heard, Job, OpenFields, Reply, Returned, Said, State, Work};
use std::io::Read;
use topo::{Goal, Iteration, Sharpening};

// The records that a run may make, and more turns than it takes.
const ROOM: usize = 120;

const TURNS: u64 = 122;

// What the last call returned, whether a question was recorded then, and whether all was as recorded so far.
#[derive(Clone, Copy)]
struct Replayed {
    returned: Returned,
    asked: bool,
    same: bool,
}

// Stays a function: every number of a sample says something, and the type is another crate's.
fn said(n: u64) -> Said {
    match n {
        0 => Said::Gave,
        1 => Said::Failed,
        _ => Said::Halted,
    }
}

fn heard(sample: &mut impl Read) -> Heard {
    let said = said(word(sample));
    let flag = bool::read(sample);
    let elapsed = word(sample);
    let allowed = word(sample);
    Heard {
        said,
        flag,
        elapsed,
        allowed,
    }
}

// A reply as recorded: 0 refused, with the number; 1 the solid part; 2 a round, with its number; 3 a stop, with its number.
fn is_reply(reply: Reply, kind: u64, n: u64) -> bool {
    match reply {
        Reply::Refused(refusal) => (kind == 0) & (u64::from(u32::from(refusal)) == n),
        Reply::Solid => kind == 1,
        Reply::Round(k) => (kind == 2) & (k as u64 == n),
        Reply::Stop(why) => (kind == 3) & (u64::from(u32::from(why)) == n),
    }
}

fn replied(sample: &mut impl Read, returned: Returned, so_far: bool) -> Replayed {
    let kind = word(sample);
    let n = word(sample);
    Replayed {
        returned,
        asked: (kind == 1) | (kind == 2),
        same: so_far & is_reply(returned.reply, kind, n),
    }
}

// The record that an answer made, or none.
fn is_record(sample: &mut impl Read, made: Option<Iteration>) -> bool {
    if word(sample) == 0 {
        return made.is_none();
    }
    let n = word(sample);
    let compliance = number(sample);
    let fraction = number(sample);
    let change = number(sample);
    let sharpness = number(sample);
    let grey = number(sample);
    let passes = word(sample);
    match made {
        Some(r) => {
            (r.number as u64 == n)
                & same(r.compliance, compliance)
                & same(r.fraction, fraction)
                & same(r.change, change)
                & same(r.sharpness, sharpness)
                & same(r.grey, grey)
                & (r.passes as u64 == passes)
        }
        None => false,
    }
}

// Whether the levels that come are those of the densities.
fn are_levels(sample: &mut impl Read, density: &[f64]) -> bool {
    let mut all = true;
    for place in density {
        all = all & (u64::from(topo::level_of(*place)) == word(sample));
    }
    all
}

fn opened(job: Job, table: &mut TableMut, fields: &mut OpenFields) -> Returned
    ensures same_table { SameTable table.old table.new }
    ensures same_fields { SameOpenFields fields.old fields.new }
{
    let mut cell = [[0u64; 3]; 8];
    let mut order = [0u32; 8];
    let mut first = [0u32; 9];
    let mut sorted = [[0.0; 3]; 8];
    let mut stamp = [0u32; 8];
    let mut weight = [0.0; 8];
    let mut found = [0u32; 8];
    let mut bits = [0u64; 1040];
    let mut work = filter::work::Work {
        cell: &mut cell,
        order: &mut order,
        first: &mut first,
        sorted: &mut sorted,
        stamp: &mut stamp,
        weight: &mut weight,
        found: &mut found,
        bits: &mut bits,
    };
    run_open::open_core(ROOM, State::fresh(), job, table, fields, &mut work)
}

// The next question and its answer, if one was recorded.
fn turn(sample: &mut impl Read, t: Replayed, elements: Elements, fields: &mut Fields) -> Replayed
    ensures same_fields { SameFields fields.old fields.new }
{
    if !t.asked {
        return t;
    }
    let levels = are_levels(sample, fields.density);
    let heard = heard(sample);
    let mut energies = [0.0; 8];
    let mut free = [0.0; 8];
    let mut slope = [0.0; 8];
    let mut spare = [0.0; 8];
    let mut dc = [0.0; 8];
    let mut dv = [0.0; 8];
    fill(sample, &mut energies);
    let mut work = Work {
        free: &mut free,
        slope: &mut slope,
        spare: &mut spare,
        dc: &mut dc,
        dv: &mut dv,
    };
    let state = t.returned.state;
    let step = run_answer::answer_core(ROOM, state, heard, &energies, elements, fields, &mut work);
    let record = is_record(sample, step.entry);
    replied(sample, step.returned, t.same & levels & record)
}

// The end of a run that stopped.
fn is_end(sample: &mut impl Read, t: Replayed, last: &[f64]) -> bool {
    let stopped = bool::read(sample);
    if stopped {
        let work = same(t.returned.state.compliances.solid, number(sample));
        return t.same & work & are(sample, last);
    }
    t.same
}

// The Rust knows no full stages: every number but 0 is its sharpening.
// Stays a function: `topo`'s has 2 for full stages.
fn sharpening(n: u64) -> Sharpening {
    if n == 0 {
        return Sharpening::Off;
    }
    Sharpening::Early
}

fn goal(sample: &mut impl Read) -> Goal {
    let fraction = number(sample);
    let radius = number(sample);
    let sharpen = sharpening(word(sample));
    let max_iterations = (word(sample) % 1000) as usize;
    Goal {
        fraction,
        radius,
        sharpen,
        max_iterations,
    }
}

// `mirrors` is room for the planes that the case has.
pub fn run(sample: &mut impl Read, mirrors: &mut [[f64; 6]]) -> bool {
    let mut volumes = [0.0; 8];
    let mut centroids = [[0.0; 3]; 8];
    let mut passive = [false; 8];
    let mut starts = [0u32; 9];
    let mut near = [0u32; 64];
    let mut coef = [0.0; 64];
    let mut design = [0.0; 8];
    let mut density = [0.0; 8];
    let mut last = [0.0; 8];
    fill(sample, &mut volumes);
    fill(sample, &mut centroids);
    fill(sample, &mut passive);
    fill(sample, mirrors);
    let goal = goal(sample);
    let job = Job {
        volumes: &volumes,
        centroids: &centroids,
        passive: &passive,
        mirrors,
        goal,
        flag: false,
    };
    let mut table = TableMut {
        starts: &mut starts,
        near: &mut near,
        coef: &mut coef,
    };
    let mut begun = OpenFields {
        design: &mut design,
        density: &mut density,
        last: &last,
    };
    let returned = opened(job, &mut table, &mut begun);
    let mut t = replied(sample, returned, true);
    let table = Table {
        starts: &starts,
        near: &near,
        coef: &coef,
    };
    let elements = Elements {
        volumes: &volumes,
        passive: &passive,
        table,
    };
    for _ in 0..TURNS {
        let mut fields = Fields {
            design: &mut design,
            density: &mut density,
            last: &mut last,
        };
        t = turn(sample, t, elements, &mut fields);
    }
    is_end(sample, t, &last)
}
