// The job strip: what it says of a job, and its words. `strip_stream` checks a strip in parts of any size, `strip_read` reads one into lists.
#![tactic(auto)]

pub mod words;

// What a strip says of the job, its lists apart. Numbers are bit patterns, so that a NaN keeps its bits.
#[derive(Clone, Copy)]
pub struct Job {
    pub elements: usize,
    // 01's share
    pub fraction: u64,
    pub radius: u64,
    // 0, 1 or 2: `topo`'s choices of sharpening
    // Stays a number, as the others are the strip's own: a job that is made otherwise may have any, and has a goal.
    pub sharpen: u32,
    // 01's rounds
    pub max_iterations: usize,
    // 01's planes
    pub mirrors: usize,
}
