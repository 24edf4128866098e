// Composite states that are made, and what a search among their levels found.
#![tactic(auto)]

ghost use Rattle.std.specs.Prelude.{◌≡◌};
ghost use Rattle.model.specs.Composite.{all_off, all_run, found_atb, found_of, off_at_level, set_state_at};
ghost use Rattle.model.specs.Sound.{entry_dueb};
ghost use Rattle.model.specs.States.{downb};

use model::cpu::AffinityInfo;
use model::sorts::PowerLevel;
use model::states::{CompositeState, Platform};
use states::kinds::{kind, power_down};
use states::platform::off;

// Is the state power-down?
pub fn is_down(p: Platform, state: u8) -> bool
    ensures { result ≡ downb p state }
{
    power_down(kind(p, state))
}

// Is an entry due: is the CPU OnPending, or suspended in a power-down state?
pub fn entry_due(p: Platform, a: AffinityInfo, state: u8) -> bool
    ensures { result ≡ entry_dueb p a state }
{
    match a {
        AffinityInfo::On => is_down(p, state),
        AffinityInfo::Off => false,
        AffinityInfo::OnPending => true,
    }
}

// RUN at every level.
pub fn all_run() -> CompositeState
    ensures { result ≡ all_run }
{
    CompositeState {
        level0: 0,
        level1: 0,
        level2: 0,
        level3: 0,
    }
}

// OFF at a level, 0 above MAX.
fn off_at_level(p: Platform, level: PowerLevel) -> u8
    ensures { result ≡ off_at_level p level.0 }
{
    if level.0 <= p.max.0 {
        return off(p);
    }
    0
}

// OFF at every level: the Rust's `PsciCompositePowerState::OFF`.
pub fn all_off(p: Platform) -> CompositeState
    ensures { result ≡ all_off p }
{
    CompositeState {
        level0: off_at_level(p, PowerLevel(0)),
        level1: off_at_level(p, PowerLevel(1)),
        level2: off_at_level(p, PowerLevel(2)),
        level3: off_at_level(p, PowerLevel(3)),
    }
}

// The states with another one at a level; past the last level nothing is stored.
pub fn set_state_at(c: CompositeState, level: PowerLevel, state: u8) -> CompositeState
    ensures { result ≡ set_state_at c level.0 state }
{
    match level.0 {
        0 => CompositeState { level0: state, ..c },
        1 => CompositeState { level1: state, ..c },
        2 => CompositeState { level2: state, ..c },
        3 => CompositeState { level3: state, ..c },
        _ => c,
    }
}

// The level that was found; 0 where there is none.
pub fn level_found(found: Option<PowerLevel>) -> PowerLevel
    ensures { result ≡ record { 0 = found_of found } }
{
    found.unwrap_or(PowerLevel(0))
}

// Is the level that was found this one?
pub fn found_at(found: Option<PowerLevel>, level: PowerLevel) -> bool
    ensures { result ≡ found_atb found level.0 }
{
    found == Some(level)
}
