// What program `shape` makes of what a strip's reader said.
#![tactic(auto)]

ghost use Rattle.std.specs.Prelude.{◌≡◌, ◌≤◌, IfOk, Ok};
ghost use Rattle.refusal.specs.Refusals.{refused};
ghost use Rattle.strip_job.specs.Strips.{refusal_of, job_in, goal_of};

use refusal::Refusal;
use strip::Job;
use topo::Goal;

// The job to be opened: not one with more elements or rounds than the program has room for.
#[tactic(auto, unfolding(lists::specs::Lists::choose))]
pub fn admitted(answer: Result<Job, Refusal>) -> Result<Job, Refusal>
    ensures number { refused result ≡ refusal_of answer }
    ensures job { IfOk result (λ job. answer ≡ Ok job) }
    ensures few { IfOk result (λ job. job.elements ≤ 256) }
{
    let job = answer?;
    if 256 < job.elements || 64 < job.max_iterations {
        return Err(Refusal::ListTooShort);
    }
    Ok(job)
}

// The refusal before the opening, or 0.
// Stays a number: beside it `admitted` answers a Result.
#[tactic(auto, unfolding(crate::specs::Strips::refusal_of, lists::specs::Lists::choose))]
pub fn refusal(answer: Result<Job, Refusal>) -> u32
    ensures { result ≡ refusal_of answer }
{
    match admitted(answer) {
        Ok(_) => 0,
        Err(why) => u32::from(why),
    }
}

// The job of a strip that is not malformed, whatever its size, or `none`.
pub fn job(answer: Result<Job, Refusal>, none: Job) -> Job
    ensures { result ≡ job_in answer none }
{
    match answer {
        Ok(job) => job,
        Err(_) => none,
    }
}

// The goal of a job.
pub fn goal(job: Job) -> Goal
    ensures { result ≡ goal_of job }
{
    Goal {
        fraction: ieee_bits::from_bits(job.fraction),
        radius: ieee_bits::from_bits(job.radius),
        sharpen: topo::sharpening_of(job.sharpen),
        max_iterations: job.max_iterations,
    }
}
