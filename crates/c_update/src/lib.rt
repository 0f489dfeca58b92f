// How an update ended, as a struct of numbers, for callers that know no enums.
#![tactic(auto)]

ghost use Rattle.std.specs.Prelude.{◌≡◌};
ghost use Rattle.refusal.specs.Refusals.{number_of};
ghost use Rattle.c_update.specs.Numbers.{told_of, refused_with};

use refusal::Refusal;
use topo::Ending;
use update::Updated;

// How an update ended, or the number of a refusal and zeros. Ending 0: met, with the kept volume first. 1: cramped, with the lower and the
// upper rate of its bracket. 2: spent, with the kept volume first.
// Stays numbers for a refusal and for an ending, since the C interface lays it out so.
#[repr(C)]
#[derive(Clone, Copy)]
pub struct Update {
    pub refused: u32,
    pub ending: u32,
    pub first: f64,
    pub second: f64,
    pub passes: usize,
}

impl From<Updated> for Update {
    ghost from_gives = { λ u r. r ≡ told_of u };

    #[tactic(auto, unfolding(crate::specs::Numbers::told_of))]
    fn from(u: Updated) -> Update
        ensures { result ≡ told_of u }
    {
        let (ending, first, second) = match u.ending {
            Ending::Met(kept) => (0, kept, 0.0),
            Ending::Cramped(low, high) => (1, low, high),
            Ending::Spent(kept) => (2, kept, 0.0),
        };
        Update {
            refused: 0,
            ending,
            first,
            second,
            passes: u.passes,
        }
    }
}

impl From<Refusal> for Update {
    ghost from_gives = { λ why r. r ≡ refused_with (number_of why) };

    #[tactic(auto, unfolding(crate::specs::Numbers::refused_with))]
    fn from(why: Refusal) -> Update
        ensures { result ≡ refused_with (number_of why) }
    {
        Update {
            refused: u32::from(why),
            ending: 0,
            first: 0.0,
            second: 0.0,
            passes: 0,
        }
    }
}
