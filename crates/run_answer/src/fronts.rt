// Lists that are lent longer than needed: the round's calls on the needed places.
ghost use Rattle.std.specs.Prelude.{◌<◌};
ghost use Rattle.run_plain.specs.Held.{core, working, SameFields};
ghost use Rattle.run_answer.specs.Steps.{Asks, Enough, Asked, Solved, core_left, working_left};

use run_plain::{Elements, Fields, State, Work};
use topo::Iteration;

// The densities of the next question.
pub fn ask(state: State, elements: Elements, fields: &mut Fields, spare: &mut [f64])
    requires { Asks state (core elements fields.old) spare.old }
    ensures asked { Asked state (core elements.entry fields.old) spare.old (core elements.entry fields.new) spare.new }
    ensures same { SameFields fields.old fields.new }
{
    let n = state.setting.elements;
    let design = &mut *fields.design;
    let density = &mut *fields.density;
    let design = &mut design[..n];
    run_round::ask(
        state,
        elements.front(n, state.setting.entries),
        design,
        &mut density[..n],
        &mut spare[..n],
    );
}

// A round on the lists lent: its record; the design, and the densities asked for as those of the last record's round, are left.
pub fn solve(
    state: State,
    energies: &[f64],
    elements: Elements,
    fields: Fields,
    work: Work,
) -> Iteration
    requires enough { Enough state energies.now (core elements fields) (working work) }
    requires left { state.progress.rounds < state.setting.max_iterations }
    ensures { Solved state energies.now (core elements.entry fields.entry) (working work.entry) result (core_left elements.entry fields.exit) (working_left work.exit) }
{
    let n = state.setting.elements;
    let Fields {
        design,
        density,
        last,
    } = fields;
    let Work {
        free,
        slope,
        spare,
        dc,
        dv,
    } = work;
    let entry = run_round::solve(
        state.progress.rounds + 1,
        state,
        energies,
        elements.front(n, state.setting.entries),
        &density[..n],
        &mut design[..n],
        Work {
            free: &mut free[..n],
            slope: &mut slope[..n],
            spare: &mut spare[..n],
            dc: &mut dc[..n],
            dv: &mut dv[..n],
        },
    );
    lists::copy(&density[..n], &mut last[..n]);
    entry
}
