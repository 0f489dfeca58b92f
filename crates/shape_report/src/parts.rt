// A report's numbers and lines, each written from a place on. Below the surface: the place is in the list or at its end.
ghost use Rattle.std.specs.Prelude.{◌≡◌, ◌≤◌, ◌<◌, [], ◌∷◌, length};
ghost use Rattle.shape_report.specs.Report.{ascii, digit as digit_of, hex as hex_of, bits_of, next_bits, decimal as decimal_of, solid_line, round_line, stop_name, stop_line, element_line, lines_from};
ghost use Rattle.shape_report.specs.Steps.{Wrote};

use topo::{Iteration, Stop};

// Stays, here and below, that the place is in the list or at its end: the list is lent and the place moves on, and a struct of both would be lent in turn, with a
// clause more in each contract that it holds the same list.
#[tactic(auto, unfolding(crate::specs::Steps::laid))]
fn byte(out: &mut [u8], at: usize, b: u8) -> usize
    requires { at ≤ length out.old }
    ensures { Wrote (b ∷ []) at out.old out.new result }
{
    if at < out.len() {
        out[at] = b;
        return at + 1;
    }
    at
}

#[tactic(auto, using(crate::proofs::Laws::nothing, crate::proofs::Laws::within))]
pub fn words(out: &mut [u8], at: usize, text: &[u8]) -> usize
    requires { at ≤ length out.old }
    ensures { Wrote text.now at out.old out.new result }
{
    let mut next = at;
    for b in text {
        next = byte(out, next, *b);
    }
    next
}

#[tactic(auto, unfolding(lists::specs::Lists::choose))]
fn digit(d: u64) -> u8
    requires { d < 16 }
    ensures { result ≡ digit_of d }
{
    if d < 10 {
        b'0' + d as u8
    } else {
        b'A' - 10 + d as u8
    }
}

// Stays by hand, as `decimal` below: tried by `write!` into the lent list, and the proof didn't close, neither that the padded hexadecimal text is
// `hex`, nor that what the calls of `write_str` write one after the other is the whole text.
fn hex(out: &mut [u8], at: usize, k: usize, n: u64) -> usize
    requires { at ≤ length out.old }
    ensures { Wrote (hex_of k n) at out.old out.new result }
{
    if k == 0 {
        return at;
    }
    let next = hex(out, at, k - 1, n / 16);
    byte(out, next, digit(n % 16))
}

// Stays by hand: tried by `write!` into the lent list, and the proof didn't close, as at `hex`.
pub fn decimal(out: &mut [u8], at: usize, n: u64) -> usize
    requires { at ≤ length out.old }
    ensures { Wrote (decimal_of n) at out.old out.new result }
{
    if n < 10 {
        return byte(out, at, digit(n));
    }
    let next = decimal(out, at, n / 10);
    byte(out, next, digit(n % 10))
}

fn bits(out: &mut [u8], at: usize, x: f64) -> usize
    requires { at ≤ length out.old }
    ensures { Wrote (bits_of x) at out.old out.new result }
{
    hex(out, at, 16, ieee_bits::to_bits(x))
}

// A space, and the bits.
fn next_bits(out: &mut [u8], at: usize, x: f64) -> usize
    requires { at ≤ length out.old }
    ensures { Wrote (next_bits x) at out.old out.new result }
{
    let a = words(out, at, b" ");
    bits(out, a, x)
}

pub fn solid_line(out: &mut [u8], work: f64) -> usize
    ensures { Wrote (solid_line work) 0 out.old out.new result }
{
    let a = words(out, 0, b"solid ");
    let b = bits(out, a, work);
    words(out, b, b"\n")
}

#[tactic(auto, using(crate::proofs::Laws::within))]
fn round_line(out: &mut [u8], at: usize, r: Iteration) -> usize
    requires { at ≤ length out.old }
    ensures { Wrote (round_line r) at out.old out.new result }
{
    let a = words(out, at, b"round ");
    let b = decimal(out, a, r.number as u64);
    let c = next_bits(out, b, r.compliance);
    let d = next_bits(out, c, r.fraction);
    let e = next_bits(out, d, r.change);
    let f = next_bits(out, e, r.sharpness);
    let g = next_bits(out, f, r.grey);
    let h = words(out, g, b" ");
    let i = decimal(out, h, r.passes as u64);
    words(out, i, b"\n")
}

#[tactic(auto, using(crate::proofs::Laws::nothing, crate::proofs::Laws::within), unfolding(crate::specs::Report::lines_from))]
pub fn round_lines(out: &mut [u8], at: usize, records: &[Iteration]) -> usize
    requires { at ≤ length out.old }
    ensures { Wrote (lines_from (λ k e. round_line e) 1 records.now) at out.old out.new result }
{
    let mut next = at;
    for r in records {
        next = round_line(out, next, *r);
    }
    next
}

fn stop_name(out: &mut [u8], at: usize, why: Stop) -> usize
    requires { at ≤ length out.old }
    ensures { Wrote (ascii (stop_name why)) at out.old out.new result }
{
    match why {
        Stop::Settled => words(out, at, b"Settled"),
        Stop::LevelledOff => words(out, at, b"LevelledOff"),
        Stop::Limit => words(out, at, b"Limit"),
        Stop::Budget => words(out, at, b"Budget"),
        Stop::Stopped => words(out, at, b"Stopped"),
    }
}

pub fn stop_line(out: &mut [u8], at: usize, why: Stop) -> usize
    requires { at ≤ length out.old }
    ensures { Wrote (stop_line why) at out.old out.new result }
{
    let a = words(out, at, b"stop ");
    let b = stop_name(out, a, why);
    words(out, b, b"\n")
}

fn element_line(out: &mut [u8], at: usize, e: usize, density: f64) -> usize
    requires { at ≤ length out.old }
    ensures { Wrote (element_line e density) at out.old out.new result }
{
    let a = decimal(out, at, e as u64);
    let b = next_bits(out, a, density);
    words(out, b, b"\n")
}

#[tactic(auto, using(crate::proofs::Laws::nothing, crate::proofs::Laws::within), unfolding(crate::specs::Report::lines_from))]
pub fn element_lines(out: &mut [u8], at: usize, density: &[f64]) -> usize
    requires { at ≤ length out.old }
    ensures { Wrote (lines_from element_line 1 density.now) at out.old out.new result }
{
    let mut next = at;
    for (e, x) in density.iter().enumerate() {
        next = element_line(out, next, e + 1, *x);
    }
    next
}
