// One round over lists of one place an element: the question that it puts, and its update and record.
#![tactic(auto)]

ghost use Rattle.std.specs.Prelude.{◌≡◌, length, Some, None};
ghost use Rattle.std.specs.Float.{binary64};
ghost use Rattle.std.specs.Float.Ieee.{div, of_bits};
ghost use Rattle.lists.specs.Lists.{choose};
ghost use Rattle.ieee_root.specs.Sqrt.{sqrt_of};
ghost use Rattle.oc_seen.specs.Lent.{slope_through};
ghost use Rattle.oc_slopes.specs.Lent.{volume_slope_through, straight_slope_through};
ghost use Rattle.run_plain.specs.Formulas.{sharpness as sharpness_of, see, update_at, record_at};
ghost use Rattle.run_plain.specs.Calls.{steep_at};
ghost use Rattle.run_round.specs.Round.{case_in, Long, LongWork, plain_slopes};

use filter_table::Table;
use oc_kept::Rule;
use run_plain::{Elements, State, Work};
use topo::Iteration;
use update::Task;

// The steepness of a stage.
pub fn sharpness(stage: usize) -> f64
    ensures { result ≡ sharpness_of (steep_at stage) }
{
    match stage {
        0 => 1.0,
        1 => 2.0,
        2 => 4.0,
        3 => 8.0,
        _ => 16.0,
    }
}

#[tactic(auto, unfolding(lists::specs::Lists::choose))]
fn seen_at(sharpen: bool, beta: f64) -> Option<f64>
    ensures { result ≡ choose sharpen (Some beta) None }
{
    if sharpen { Some(beta) } else { None }
}

// The rule by which an update reckons the volume kept.
#[tactic(auto, unfolding(lists::specs::Lists::choose))]
fn rule_at(sharpen: bool, beta: f64, solid: f64) -> Rule
    ensures { result ≡ choose sharpen (Rule.Sharpened beta) (Rule.Straight solid) }
{
    if sharpen {
        Rule::Sharpened(beta)
    } else {
        Rule::Straight(solid)
    }
}

// The most that an update moves a value.
#[tactic(auto, unfolding(lists::specs::Lists::choose))]
fn move_at(sharpen: bool, beta: f64) -> f64
    ensures { result ≡ choose sharpen (div binary64 (of_bits binary64 0x3fc9_9999_9999_999a) (sqrt_of binary64 beta)) (of_bits binary64 0x3fc9_9999_9999_999a) }
{
    if sharpen {
        return topo::MOVE / ieee_root::sqrt(beta);
    }
    topo::MOVE
}

// Without sharpening the slopes need no filter: 1, and 0 where held.
#[tactic(auto, using(lists::proofs::Filled::stored, lists::proofs::Filled::filled), unfolding(lists::specs::Lists::overwrite, crate::specs::Round::plain_slopes, lists::specs::Lists::choose))]
fn slopes_plain(passive: &[bool], slope: &mut [f64])
    requires { Long passive.now slope.old }
    ensures { slope.new ≡ plain_slopes passive.now }
{
    for (i, s) in slope.iter_mut().enumerate() {
        *s = if passive[i] { 0.0 } else { 1.0 };
    }
}

// How fast each density moves with its filtered value. `spare` is for the call's own use.
#[tactic(auto, using(crate::proofs::Laws::slopes_off), unfolding(lists::specs::Lists::choose))]
fn slopes(
    sharpen: bool,
    beta: f64,
    elements: Elements,
    x: &[f64],
    spare: &mut [f64],
    slope: &mut [f64],
)
    requires { Long elements.passive.now spare.old × Long elements.passive.now slope.old }
    ensures { slope.new ≡ slope_through (choose sharpen (Some beta) None) elements.entry.table elements.entry.passive.now x.now }
{
    let Elements { passive, table, .. } = elements;
    if sharpen {
        oc_seen::see(table, passive, x, Some(beta), spare, slope);
    } else {
        slopes_plain(passive, slope);
    }
}

// How the volume goes with the design. `spare` is for the call's own use.
#[tactic(auto, unfolding(lists::specs::Lists::choose))]
fn volume_slopes(
    sharpen: bool,
    table: Table,
    slope: &[f64],
    free: &[f64],
    spare: &mut [f64],
    dv: &mut [f64],
)
    requires { (length slope.now ≡ length free.now) × (length spare.old ≡ length free.now) × (length dv.old ≡ length free.now) }
    ensures { dv.new ≡ choose sharpen (volume_slope_through table.entry slope.now free.now) (straight_slope_through table.entry free.now) }
{
    if sharpen {
        oc_slopes::volume_slope(table, slope, free, spare, dv);
    } else {
        oc_slopes::straight_slope(table, free, dv);
    }
}

// The densities that a round is asked with. `spare` is for the call's own use.
#[tactic(auto, unfolding(run_plain::specs::Formulas::see))]
pub fn ask(state: State, elements: Elements, design: &[f64], density: &mut [f64], spare: &mut [f64])
    requires { Long elements.passive.now density.old × Long elements.passive.now spare.old }
    ensures { density.new ≡ see (case_in state elements.entry) (steep_at state.progress.stage) design.now }
{
    let sharpen = state.setting.sharpen.sharpens();
    let at = seen_at(sharpen, sharpness(state.progress.stage));
    oc_seen::see(elements.table, elements.passive, design, at, density, spare);
}

// A round's update and its record under a number. `work.slope` holds each density's slope until the update leaves its design there, and `work.free` the free volumes until
// the update takes it for the gains.
pub fn solve(
    number: usize,
    state: State,
    energies: &[f64],
    elements: Elements,
    density: &[f64],
    design: &mut [f64],
    work: Work,
) -> Iteration
    requires lists { Long elements.passive.now energies.now × Long elements.passive.now elements.volumes.now × Long elements.passive.now density.now × Long elements.passive.now design.old }
    requires work { LongWork elements.passive.now work }
    ensures entry { result ≡ record_at (case_in state elements.entry) (steep_at state.progress.stage) design.old density.now energies.now number }
    ensures updated { design.new ≡ (update_at (case_in state elements.entry) (steep_at state.progress.stage) design.old density.now energies.now).design }
{
    let Elements {
        volumes,
        passive,
        table,
    } = elements;
    let Work {
        free,
        slope,
        spare,
        dc,
        dv,
    } = work;
    let sharpen = state.setting.sharpen.sharpens();
    let beta = sharpness(state.progress.stage);
    let total = lists::sum(volumes);
    let solid = oc_start::solid_volume(volumes, passive);
    oc_start::free_volumes(volumes, passive, free);
    let grey = oc_record::grey(density, &free[..], lists::sum(&free[..]));
    slopes(sharpen, beta, elements, &design[..], spare, slope);
    oc_slopes::work_slope(table, passive, density, &slope[..], energies, spare, dc);
    volume_slopes(sharpen, table, &slope[..], &free[..], spare, dv);
    let u = update::update(
        Task {
            x: &design[..],
            dc: &dc[..],
            dv: &dv[..],
            passive,
            m: move_at(sharpen, beta),
            target: oc_goal::target(state.setting.fraction, total),
            tolerance: oc_goal::tolerance(total),
            rule: rule_at(sharpen, beta, solid),
            table,
            volumes,
        },
        slope,
        free,
        spare,
    );
    let change = oc_record::change(&slope[..], &design[..]);
    lists::copy(slope, design);
    Iteration {
        number,
        compliance: oc_record::compliance(energies),
        fraction: oc_record::fraction(volumes, density, total),
        change,
        sharpness: beta,
        grey,
        passes: u.passes,
    }
}
