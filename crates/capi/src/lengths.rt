// What lists are refused for.
ghost use Rattle.std.specs.Prelude.{◌≡◌, ◌<◌, false, IfOk, IfErr};
ghost use Rattle.refusal.specs.Refusals.{number_of, refused};
ghost use Rattle.capi.specs.Lent.{refusal_of};

use refusal::Refusal;

// Whether lists differ in count, and then whether one is shorter than needed.
#[tactic(auto, using(refusal::proofs::Numbers::some_number), unfolding(lists::specs::Lists::choose))]
pub fn check(differ: bool, short: bool) -> Result<(), Refusal>
    ensures refusal { refused result ≡ refusal_of differ short }
    ensures some { IfErr result (λ why. 0 < number_of why) }
    ensures accepted { IfOk result (λ _. (differ ≡ false) × (short ≡ false)) }
{
    if differ {
        return Err(Refusal::CountsDiffer);
    }
    if short {
        return Err(Refusal::ListTooShort);
    }
    Ok(())
}
