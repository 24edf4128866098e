ghost use Rattle.std.specs.Prelude.{◌≡◌};
ghost use Rattle.model.specs.Calls.{system_suspend_code};

use crate::mode::is_platform_coordinated;
use composite::{found_at, is_down};
use model::code::Refusal;
use model::state::SuspendMode;
use model::states::{CompositeState, Platform};
use states::composite::{highest_level_state, states_in_range};
use states::request::{find_highest_non_run_level, is_valid_suspend_request};

// System suspend: -1; -3 unless every other CPU is Off; -9; 106 if a state is out of range; -3 unless the highest non-RUN level
// is MAX; 106 unless valid and power-down at MAX; 107.
pub fn system_suspend_code(
    p: Platform,
    mode: SuspendMode,
    feature: bool,
    last: bool,
    good: bool,
    asked: CompositeState,
) -> Result<(), Refusal>
    ensures { result ≡ system_suspend_code p mode feature last good asked }
{
    if !feature {
        return Err(Refusal::NotSupported);
    }
    if !last {
        return Err(Refusal::Denied);
    }
    if !good {
        return Err(Refusal::InvalidAddress);
    }
    if !states_in_range(p, asked) {
        return Err(Refusal::Unusable);
    }
    let at_max = found_at(find_highest_non_run_level(p, asked), p.max);
    let valid = is_valid_suspend_request(p, asked) & is_down(p, highest_level_state(p, asked));
    if !at_max {
        return Err(Refusal::Denied);
    }
    if !valid {
        return Err(Refusal::Unusable);
    }
    if !is_platform_coordinated(mode) {
        return Err(Refusal::OsInitiated);
    }
    Ok(())
}
