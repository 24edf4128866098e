ghost use Rattle.std.specs.Prelude.{◌≡◌};
ghost use Rattle.model.specs.Calls.{mode_allowedb, mode_code, platform_coordinatedb, same_modeb};

use model::code::Refusal;
use model::state::SuspendMode;

// Is the mode platform-coordinated?
pub fn is_platform_coordinated(mode: SuspendMode) -> bool
    ensures { result ≡ platform_coordinatedb mode }
{
    mode == SuspendMode::PlatformCoordinated
}

// Are the modes the same?
fn is_same_mode(a: SuspendMode, b: SuspendMode) -> bool
    ensures { result ≡ same_modeb a b }
{
    a == b
}

// May the mode be set: platform-coordinated if every other CPU is Off, OS-initiated if all are On or every other is Off?
fn is_mode_allowed(wanted: SuspendMode, last: bool, all: bool) -> bool
    ensures { result ≡ mode_allowedb wanted last all }
{
    match wanted {
        SuspendMode::PlatformCoordinated => last,
        SuspendMode::OsInitiated => all | last,
    }
}

// Set mode: -1; the current mode gives 0; -3 unless it is allowed.
pub fn mode_code(
    feature: bool,
    current: SuspendMode,
    wanted: SuspendMode,
    last: bool,
    all: bool,
) -> Result<(), Refusal>
    ensures { result ≡ mode_code feature current wanted last all }
{
    if !feature {
        return Err(Refusal::NotSupported);
    }
    if is_same_mode(current, wanted) {
        return Ok(());
    }
    if !is_mode_allowed(wanted, last, all) {
        return Err(Refusal::Denied);
    }
    Ok(())
}
