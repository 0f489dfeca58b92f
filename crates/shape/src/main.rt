// Reads a job strip from standard input, runs its job, and writes what came of it to standard output. Nothing is written before the run has ended.
#![tactic(auto)]

ghost use Rattle.std.specs.Prelude.{◌≤◌, length};
ghost use Rattle.shape_report.specs.Report.{text_of};
ghost use Rattle.shape_report.specs.Steps.{Wrote};
ghost use Rattle.shape.specs.Shape.{outcome_from};

use filter::work::TableMut;
use refusal::Refusal;
use run_plain::Fields;
use std::io;
use std::io::Read;
use strip::Job;
use strip_lists::Lists;
use strip_read::Lists as Patterns;
use strip_stream::Stream;
use topo::{Goal, Iteration};

// What was read of a strip, and how many of its bytes are kept.
#[derive(Clone, Copy)]
struct Input {
    stream: Stream,
    at: usize,
}

// Keeps a part of a strip from place `at` on, as far as there is room. Tells the next place.
fn keep(kept: &mut [u8], at: usize, part: &[u8]) -> usize
    requires { at ≤ length kept.old }
    ensures { result ≤ length kept.old }
{
    let n = part.len().min(kept.len() - at);
    kept[at..at + n].copy_from_slice(&part[..n]);
    at + n
}

// Reads to the end in parts: each is fed to the stream, and the first bytes are kept. A read that fails counts as the end. A strip has less than 2^35
// bytes and a part one at least, so a strip that 2^64 - 1 parts do not end is malformed by then.
fn read_all(from: &mut impl Read, kept: &mut [u8]) -> Input
    ensures { result.at ≤ length kept.old }
{
    let mut stream = strip_stream::begin();
    let mut at = 0;
    let mut part = [0; 65536];
    for _ in 0..u64::MAX {
        let got = from.read(&mut part).unwrap_or(0);
        if got == 0 {
            break;
        }
        stream = strip_stream::feed(stream, &part[..got]);
        at = keep(kept, at, &part[..got]);
    }
    Input { stream, at }
}

// Loads the job of a strip that is whole and not malformed.
fn load(kept: &[u8], passive: &mut [bool], lists: Lists) -> Result<(), Refusal> {
    strip_lists::load(
        kept,
        Patterns {
            volumes: &mut [0; 256],
            centroids: &mut [[0; 3]; 256],
            weights: &mut [0; 256],
            passive,
            mirrors: &mut [[0; 6]; 3],
        },
        lists,
    )
}

// Runs a job, and writes its text into `out`: the lists of the run are all zero at the start.
fn run(
    goal: Goal,
    volumes: &[f64],
    centroids: &[[f64; 3]],
    weights: &[f64],
    passive: &[bool],
    mirrors: &[[f64; 6]],
    out: &mut [u8],
) -> usize
    requires { length volumes.now ≤ 256 }
    ensures upper_bound { result ≤ length out.old }
    ensures wrote { Wrote (text_of (outcome_from goal volumes.now centroids.now weights.now passive.now mirrors.now)) 0 out.old out.new result }
{
    let none = Iteration {
        number: 0,
        compliance: 0.0,
        fraction: 0.0,
        change: 0.0,
        sharpness: 0.0,
        grey: 0.0,
        passes: 0,
    };
    let job = run_plain::Job {
        volumes,
        centroids,
        passive,
        mirrors,
        goal,
        flag: false,
    };
    let table = TableMut {
        starts: &mut [0; 257],
        near: &mut [0; 4096],
        coef: &mut [0.0; 4096],
    };
    let fields = Fields {
        design: &mut [0.0; 256],
        density: &mut [0.0; 256],
        last: &mut [0.0; 256],
    };
    let mut lists = shape_job::Lists {
        table,
        fields,
        history: &mut [none; 64],
    };
    let mut opening = filter::work::Work {
        cell: &mut [[0; 3]; 256],
        order: &mut [0; 256],
        first: &mut [0; 257],
        sorted: &mut [[0.0; 3]; 256],
        stamp: &mut [0; 256],
        weight: &mut [0.0; 256],
        found: &mut [0; 256],
        bits: &mut [0; 1040],
    };
    let mut answers = run_plain::Work {
        free: &mut [0.0; 256],
        slope: &mut [0.0; 256],
        spare: &mut [0.0; 256],
        dc: &mut [0.0; 256],
        dv: &mut [0.0; 256],
    };
    let mut energies = [0.0; 256];
    let n = volumes.len();
    shape_text::text(
        job,
        weights,
        &mut lists,
        &mut energies[..n],
        &mut opening,
        &mut answers,
        out,
    )
}

// Runs the job of the bytes kept of its strip, and writes its text into `out`.
fn report(job: Job, kept: &[u8], out: &mut [u8]) -> usize
    ensures { result ≤ length out.old }
{
    let mut volumes = [0.0; 256];
    let mut centroids = [[0.0; 3]; 256];
    let mut weights = [0.0; 256];
    let mut passive = [false; 256];
    let mut mirrors = [[0.0; 6]; 3];
    let lists = Lists {
        volumes: &mut volumes,
        centroids: &mut centroids,
        weights: &mut weights,
        mirrors: &mut mirrors,
    };
    // A strip that passed so far has at most 16,644 bytes (`reach`), and is kept whole. Were it not, nothing is run.
    if load(kept, &mut passive, lists).is_err() {
        return shape_report::refused_for(out, Refusal::ListTooShort);
    }
    // a job that is admitted has no more than these
    let n = job.elements.min(256);
    let k = job.mirrors.min(3);
    run(
        strip_job::goal(job),
        &volumes[..n],
        &centroids[..n],
        &weights[..n],
        &passive[..n],
        &mirrors[..k],
        out,
    )
}

fn main(rt: HostRuntime) -> io::Result<()> {
    // the bytes of a strip of 256 elements and three planes: what is past them is fed to the reader and not kept
    let mut kept = [0; 16644];
    // what a report of 64 rounds and 256 elements takes
    let mut out = [0; 14000];
    let input = read_all(&mut rt.stdin(), &mut kept);
    let answer = strip_stream::finish(input.stream);
    let end = match strip_job::admitted(answer) {
        Ok(job) => report(job, &kept[..input.at], &mut out),
        Err(why) => shape_report::refused_for(&mut out, why),
    };
    rt.write_all(&out[..end])
}
