// What program `shape` prints of a run, written into a lent list: as much of the text as the list has room for. Each function tells the place after
// what it wrote.
#![tactic(auto)]

mod parts;

ghost use Rattle.refusal.specs.Refusals.{number_of};
ghost use Rattle.shape_report.specs.Report.{text_of, refused as refused_text, ran as ran_text};
ghost use Rattle.shape_report.specs.Steps.{Wrote};

use refusal::Refusal;
use topo::{Iteration, Stop};

// A refusal by its number, whatever that is.
pub fn refused(out: &mut [u8], number: u32) -> usize
    ensures { Wrote (text_of (refused_text number)) 0 out.old out.new result }
{
    let a = parts::words(out, 0, b"refused ");
    let b = parts::decimal(out, a, u64::from(number));
    parts::words(out, b, b"\n")
}

// A refusal.
pub fn refused_for(out: &mut [u8], why: Refusal) -> usize
    ensures { Wrote (text_of (refused_text (number_of why))) 0 out.old out.new result }
{
    refused(out, u32::from(why))
}

// A run that stopped: the solid part's work, its records, the stop, and the densities of the last record's round.
pub fn ran(out: &mut [u8], solid: f64, records: &[Iteration], why: Stop, density: &[f64]) -> usize
    ensures { Wrote (text_of (ran_text solid records.now why density.now)) 0 out.old out.new result }
{
    let a = parts::solid_line(out, solid);
    let b = parts::round_lines(out, a, records);
    let c = parts::stop_line(out, b, why);
    parts::element_lines(out, c, density)
}
