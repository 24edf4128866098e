ghost use Rattle.std.specs.Prelude.{◌≡◌};
ghost use Rattle.model.specs.Calls.{on_code};
ghost use Rattle.model.specs.Numbers.{answer_of, usableb};

use model::code::{Refusal, is_answer, of_answer};
use model::cpu::AffinityInfo;

// On: 106, -2, -9, -4, -5; then it is as the platform answers.
pub fn on_code(answer: u8, exists: bool, good: bool, target: AffinityInfo) -> Result<(), Refusal>
    ensures { result ≡ on_code (usableb answer) exists good target (answer_of answer) }
{
    if !is_answer(answer) {
        return Err(Refusal::Unusable);
    }
    if !exists {
        return Err(Refusal::InvalidParameters);
    }
    if !good {
        return Err(Refusal::InvalidAddress);
    }
    match target {
        AffinityInfo::On => Err(Refusal::AlreadyOn),
        AffinityInfo::OnPending => Err(Refusal::OnPending),
        AffinityInfo::Off => of_answer(answer),
    }
}
