ghost use Rattle.std.specs.Prelude.{◌≡◌};
ghost use Rattle.model.specs.Calls.{suspend_code};

use crate::mode::is_platform_coordinated;
use model::code::Refusal;
use model::state::SuspendMode;
use model::states::{CompositeState, Platform};
use states::request::is_valid_suspend_request;

// Suspend: -2 unless it is a valid request, 107.
pub fn suspend_code(p: Platform, mode: SuspendMode, asked: CompositeState) -> Result<(), Refusal>
    ensures { result ≡ suspend_code p mode asked }
{
    if !is_valid_suspend_request(p, asked) {
        return Err(Refusal::InvalidParameters);
    }
    if !is_platform_coordinated(mode) {
        return Err(Refusal::OsInitiated);
    }
    Ok(())
}
