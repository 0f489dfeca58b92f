// One solver for up to sixteen jobs: who is granted the next question.
#![tactic(auto)]

mod checks;
mod choice;

ghost use Rattle.std.specs.Prelude.{◌≡◌};
ghost use Rattle.shift.specs.Grants.{begin_of, grant_of, begun, granted_by};

use refusal::Refusal;

// What goes from call to call: the jobs' numbers stand at their places, and zeros past them.
// Stays lists beside a count, since the C interface lays it out so.
#[repr(C)]
#[derive(Clone, Copy)]
pub struct Shift {
    // 1 to 16
    pub jobs: u32,
    pub share: [u32; 16],
    // the most questions that each may be granted
    pub limit: [u32; 16],
    // the questions that each was granted
    pub granted: [u32; 16],
}

// What C is told of a beginning.
// Stays a number beside the shift, since the C interface lays it out so.
#[repr(C)]
#[derive(Clone, Copy)]
pub struct ShiftBegun {
    // 0 or 30
    pub refused: u32,
    // zeros where it is refused
    pub shift: Shift,
}

impl From<Result<Shift, Refusal>> for ShiftBegun {
    #[tactic(auto, unfolding(crate::specs::Grants::no_shift))]
    fn from(outcome: Result<Shift, Refusal>) -> ShiftBegun
        ensures { result ≡ begun outcome }
    {
        match outcome {
            Ok(shift) => ShiftBegun { refused: 0, shift },
            Err(why) => ShiftBegun {
                refused: u32::from(why),
                shift: Shift {
                    jobs: 0,
                    share: [0; 16],
                    limit: [0; 16],
                    granted: [0; 16],
                },
            },
        }
    }
}

// What C is told of a grant.
// Stays a number beside the job, since the C interface lays it out so.
#[repr(C)]
#[derive(Clone, Copy)]
pub struct ShiftGrant {
    // 0, or 20, 30, 31
    pub refused: u32,
    // the job that the question goes to; 0 where it is refused
    pub job: u32,
    // as it was lent where it is refused
    pub shift: Shift,
}

impl ShiftGrant {
    // Of a grant's outcome and the shift that it left.
    pub fn new(outcome: Result<u32, Refusal>, shift: Shift) -> ShiftGrant
        ensures { result ≡ granted_by outcome shift }
    {
        let shift = shift.copied();
        match outcome {
            Ok(job) => ShiftGrant {
                refused: 0,
                job,
                shift,
            },
            Err(why) => ShiftGrant {
                refused: u32::from(why),
                job: 0,
                shift,
            },
        }
    }
}

impl Shift {
    // The same shift, field by field: for a copy of the whole an archive for C would take `memcpy` from outside.
    pub fn copied(&self) -> Shift
        ensures { result ≡ self.now }
    {
        Shift {
            jobs: self.jobs,
            share: self.share,
            limit: self.limit,
            granted: self.granted,
        }
    }

    // A shift of jobs with these shares and limits.
    #[tactic(auto, using(crate::proofs::Tests::few_jobs, lists::proofs::Filled::stored), unfolding(crate::specs::Grants::begin_of, crate::specs::Grants::no_shift, crate::specs::Grants::share_of, crate::specs::Grants::limit_of, lists::specs::Lists::choose, lists::specs::Lists::overwrite))]
    pub fn begin(jobs: &[[u32; 2]]) -> Result<Shift, Refusal>
        ensures { begun result ≡ begin_of jobs.now }
    {
        if checks::unfit(jobs) {
            return Err(Refusal::ShiftOutside);
        }
        let mut share = [0; 16];
        let mut limit = [0; 16];
        for (j, job) in jobs.iter().enumerate() {
            share[j] = job[0];
            limit[j] = job[1];
        }
        Ok(Shift {
            jobs: jobs.len() as u32,
            share,
            limit,
            granted: [0; 16],
        })
    }

    // The next question goes to one of the jobs named, which is told. A shift that is refused is left as it was.
    #[tactic(auto, using(crate::proofs::Tests::room), unfolding(crate::specs::Grants::grant_of, crate::specs::Grants::granted_to, lists::specs::Lists::choose))]
    pub fn grant(&mut self, named: &[u32]) -> Result<u32, Refusal>
        ensures { granted_by result self.new ≡ grant_of self.old named.now }
    {
        if self.fails() {
            return Err(Refusal::OutOfTurn);
        }
        if checks::unknown(self.jobs, named) {
            return Err(Refusal::ShiftOutside);
        }
        let Some(job) = self.chosen(named) else {
            return Err(Refusal::NoneWaiting);
        };
        if self.total() == 1_000_000 {
            return Err(Refusal::NoneWaiting);
        }
        self.granted[job] += 1;
        Ok(job as u32)
    }
}
