// Whether a row has room.
ghost use Rattle.std.specs.Prelude.{◌≡◌, ◌^◌, ◌<◌};
ghost use Rattle.refusal.specs.Refusals.{refused};
ghost use Rattle.filter.specs.Steps.{room_refusal};

use refusal::Refusal;

// The table's bytes with row e, which ends at `end`, are looked at before the lists.
#[tactic(auto, unfolding(lists::specs::Lists::choose))]
pub fn check(e: usize, end: usize, nears: usize, coefs: usize) -> Result<(), Refusal>
    requires { (e < 2 ^ 32) × (end < 2 ^ 32) }
    ensures { refused result ≡ room_refusal e end nears coefs }
{
    if 4 * (e + 2) + 12 * end > 536870912 {
        return Err(Refusal::TableTooLarge);
    }
    if (nears < end) | (coefs < end) {
        return Err(Refusal::ListTooShort);
    }
    Ok(())
}
