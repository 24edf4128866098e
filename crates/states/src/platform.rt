ghost use Rattle.std.specs.Prelude.{◌≡◌};
ghost use Rattle.model.specs.States.{accept_platform_of, betweenb, in_rangeb, off_of, platformb};

use model::code::Refusal;
use model::limits::{HIGHEST_MAX, STATES};
use model::states::Platform;

// OFF, the last state. (A platform of no states, which is refused, has RUN alone.)
pub fn off(p: Platform) -> u8
    ensures { result ≡ off_of p }
{
    p.states.saturating_sub(1)
}

// Is x from low to high, both counted?
fn between(low: u8, x: u8, high: u8) -> bool
    ensures { result ≡ betweenb low x high }
{
    (low..=high).contains(&x)
}

// Is the platform acceptable?
pub fn platform_accepted(p: Platform) -> bool
    ensures { result ≡ platformb p }
{
    between(1, p.max.0, HIGHEST_MAX) & between(2, p.states, STATES) & between(1, p.down, off(p))
}

// 101 for a platform that is not acceptable.
pub fn accept_platform(p: Platform) -> Result<(), Refusal>
    ensures { result ≡ accept_platform_of p }
{
    if platform_accepted(p) {
        return Ok(());
    }
    Err(Refusal::BadBoard)
}

// Has the platform this state?
pub fn state_in_range(p: Platform, state: u8) -> bool
    ensures { result ≡ in_rangeb p state }
{
    state < p.states
}
