// One solver, many jobs.
ghost use Rattle.std.specs.Prelude.{◌≡◌};
ghost use Rattle.shift.specs.Grants.{begin_of, grant_of};

use shift::{Shift, ShiftBegun, ShiftGrant};

// A shift of up to sixteen jobs, of each its share and its limit; 30 for more than sixteen or none, and for a share or a limit out of range.
#[unsafe(no_mangle)]
pub extern "C" fn sokdrib_shift_begin(jobs: &[[u32; 2]]) -> ShiftBegun
    ensures { result ≡ begin_of jobs.now }
{
    ShiftBegun::from(Shift::begin(jobs))
}

// The next question, to one of the jobs named: the job, and the shift for the next call. 20, 30 and 31 leave the shift as it was lent.
#[unsafe(no_mangle)]
pub extern "C" fn sokdrib_shift_grant(shift: Shift, named: &[u32]) -> ShiftGrant
    ensures { result ≡ grant_of shift named.now }
{
    let mut next = shift.copied();
    let outcome = next.grant(named);
    ShiftGrant::new(outcome, next)
}
