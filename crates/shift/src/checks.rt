// What a shift's beginning and a grant are refused for.
ghost use Rattle.std.specs.Prelude.{◌≡◌, ◌<◌, not, get_or};
ghost use Rattle.std.specs.List.{list_any};
ghost use Rattle.shift.specs.Grants.{in_range, job_at, granted_at, unfit_jobs, wrong_numbers, sum_of, fails_test, unknown_job};

use crate::Shift;

// A place's numbers, of a job or past the jobs.
#[derive(Clone, Copy)]
pub struct Job {
    pub share: u32,
    pub limit: u32,
    pub granted: u32,
}

pub fn in_range(share: u32, limit: u32) -> bool
    ensures { result ≡ in_range share limit }
{
    (1..=1_000).contains(&share) && limit <= 1_000_000
}

fn any_unfit(jobs: &[[u32; 2]]) -> bool
    ensures { result ≡ list_any (λ job. not (in_range (get_or job 0 0) (get_or job 1 0))) jobs.now }
{
    jobs.iter().any(|job| !in_range(job[0], job[1]))
}

// 30 of a beginning.
#[tactic(auto, unfolding(crate::specs::Grants::unfit_jobs))]
pub fn unfit(jobs: &[[u32; 2]]) -> bool
    ensures { result ≡ unfit_jobs jobs.now }
{
    jobs.is_empty() || 16 < jobs.len() || any_unfit(jobs)
}

// Whether one of some names is no job's.
// Stays a loop that reads all: `any` stops at the first, and so the compiler would take the names one by one.
#[tactic(auto, unfolding(crate::specs::Grants::unknown_job))]
fn any_unknown(jobs: u32, names: &[u32]) -> bool
    ensures { result ≡ unknown_job jobs names.now }
{
    let mut bad = false;
    for job in names {
        bad |= jobs <= *job;
    }
    bad
}

// 30 of a grant. A long list is read by parts, up to the first with such a name.
pub fn unknown(jobs: u32, named: &[u32]) -> bool
    ensures { result ≡ unknown_job jobs named.now }
{
    let mut rest = named;
    while 64 < rest.len() {
        if any_unknown(jobs, &rest[..64]) {
            return true;
        }
        rest = &rest[64..];
    }
    any_unknown(jobs, rest)
}

impl Job {
    // Whether the numbers are no shift's, at the place of a job or past the jobs.
    #[tactic(auto, unfolding(crate::specs::Grants::wrong_numbers))]
    fn is_wrong(self, listed: bool) -> bool
        ensures { result ≡ wrong_numbers listed self.share self.limit self.granted }
    {
        if listed {
            return !in_range(self.share, self.limit) || self.limit < self.granted;
        }
        self.share != 0 || self.limit != 0 || self.granted != 0
    }
}

impl Shift {
    pub fn job(&self, j: usize) -> Job
        requires { j < 16 }
        ensures { result ≡ job_at self.now j }
    {
        Job {
            share: self.share[j],
            limit: self.limit[j],
            granted: self.granted[j],
        }
    }

    // The questions granted so far.
    #[tactic(auto, unfolding(crate::specs::Grants::sum_of))]
    pub fn total(&self) -> u64
        ensures { result ≡ sum_of (granted_at self.now) 16 }
    {
        let mut total = 0;
        for granted in self.granted {
            total += u64::from(granted);
        }
        total
    }

    // 20's test.
    #[tactic(auto, unfolding(crate::specs::Grants::fails_test, lists::specs::Lists::any_to))]
    pub fn fails(&self) -> bool
        ensures { result ≡ fails_test self.now }
    {
        let mut bad = false;
        for j in 0..16u32 {
            bad |= self.job(j as usize).is_wrong(j < self.jobs);
        }
        self.jobs < 1 || 16 < self.jobs || bad || 1_000_000 < self.total()
    }
}
