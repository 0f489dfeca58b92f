// The waiting job that a question goes to.
ghost use Rattle.std.specs.Prelude.{◌≡◌, ◌<◌, MatchOption};
ghost use Rattle.lists.specs.Lists.{tabulate};
ghost use Rattle.shift.specs.Grants.{is_named, sooner, chosen_of, place_of};

use crate::Shift;
use crate::checks::Job;

// Which jobs are named, however often.
#[tactic(auto, unfolding(crate::specs::Grants::is_named))]
fn marked(named: &[u32]) -> [bool; 16]
    ensures { result ≡ tabulate (is_named named.now) 16 }
{
    let mut marks = [false; 16];
    for job in named {
        if *job < 16 {
            marks[*job as usize] = true;
        }
    }
    marks
}

impl Job {
    // Whether (granted + 1)/share is below that of another job: the products of two u32 fit.
    #[tactic(auto, unfolding(crate::specs::Grants::sooner))]
    fn is_sooner(self, other: Job) -> bool
        ensures { result ≡ sooner self.granted self.share other.granted other.share }
    {
        (u64::from(self.granted) + 1) * u64::from(other.share)
            < (u64::from(other.granted) + 1) * u64::from(self.share)
    }
}

impl Shift {
    // Of the jobs named, the one that waits with the smallest (granted + 1)/share, the lowest on a tie.
    #[tactic(auto, unfolding(lists::specs::Lists::fold_to, lists::specs::Lists::choose, crate::specs::Grants::turn))]
    pub fn chosen(&self, named: &[u32]) -> Option<usize>
        ensures place { place_of result ≡ chosen_of self.now named.now }
        ensures below { MatchOption result (Unit {0}) (λ j. j < 16) }
    {
        let marks = marked(named);
        let mut best: Option<usize> = None;
        // the numbers of the best so far: read by its place in each turn, they keep the next turn waiting
        let mut held = self.job(0);
        for (j, marked) in marks.iter().enumerate() {
            let job = self.job(j);
            let first = match best {
                Some(_) => job.is_sooner(held),
                None => true,
            };
            let sooner = *marked & (job.granted < job.limit) & first;
            best = lists::either(sooner, Some(j), best);
            held = lists::either(sooner, job, held);
        }
        best
    }
}
