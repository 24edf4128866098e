ghost use Rattle.std.specs.Prelude.{Bool, ℕ, not, ◌≡◌};
ghost use Rattle.model.specs.Below.{highest};
ghost use Rattle.model.specs.Composite.{find_highest_non_run_level_of, find_highest_power_down_level_of, is_valid_suspend_requestb};
ghost use Rattle.model.specs.Composite.{kind_at, non_run_atb, power_down_atb};
ghost use Rattle.model.specs.Limits.{levels};
ghost use Rattle.model.specs.States.{deeperb};

use crate::composite::{cpu_level_state, state_at, states_in_range};
use crate::kinds::{deeper, kind, power_down};
use model::sorts::PowerLevel;
use model::states::{CompositeState, Platform};

// The highest level at which a test holds: the walk is from the top level down.
fn highest_at<F: Fn(PowerLevel) -> bool + Drop>(test: F) -> Option<PowerLevel>
    requires { F.IsAlwaysCallable test }
    ensures { (holds : ℕ → Bool) → ((level : PowerLevel) (x : Bool) → F.post test level x → x ≡ holds level.0)
        → result ≡ highest levels holds }
{
    for level in (0..4).rev() {
        if test(PowerLevel(level)) {
            return Some(PowerLevel(level));
        }
    }
    None
}

// Is this a level up to MAX that is not RUN? It and `power_down_at` differ in the test of a state alone.
fn non_run_at(p: Platform, c: CompositeState, level: PowerLevel) -> bool
    ensures { result ≡ non_run_atb p c level.0 }
{
    (level.0 <= p.max.0) & (state_at(c, level) != 0)
}

// The highest level that is not RUN: a suspend's highest affected level.
pub fn find_highest_non_run_level(p: Platform, c: CompositeState) -> Option<PowerLevel>
    ensures { result ≡ find_highest_non_run_level_of p c }
{
    highest_at(|level| non_run_at(p, c, level))
}

// Is this a level up to MAX that is power-down?
fn power_down_at(p: Platform, c: CompositeState, level: PowerLevel) -> bool
    ensures { result ≡ power_down_atb p c level.0 }
{
    (level.0 <= p.max.0) & power_down(kind(p, state_at(c, level)))
}

// The highest level that is power-down.
pub fn find_highest_power_down_level(p: Platform, c: CompositeState) -> Option<PowerLevel>
    ensures { result ≡ find_highest_power_down_level_of p c }
{
    highest_at(|level| power_down_at(p, c, level))
}

// Is the kind of a level no deeper than that of the level below it?
fn no_deeper(p: Platform, c: CompositeState, above: PowerLevel, below: PowerLevel) -> bool
    ensures { result ≡ not (deeperb (kind_at p c above.0) (kind_at p c below.0)) }
{
    let high = kind(p, state_at(c, above));
    let low = kind(p, state_at(c, below));
    !deeper(high, low)
}

// Is this a valid suspend request: states in range, level 0 not RUN, no level's kind deeper than the kind below it?
#[tactic(auto, unfolding(model::specs::Below::every, model::specs::Composite::is_valid_suspend_requestb))]
pub fn is_valid_suspend_request(p: Platform, c: CompositeState) -> bool
    ensures { result ≡ is_valid_suspend_requestb p c }
{
    let kinds_fall = no_deeper(p, c, PowerLevel(1), PowerLevel(0))
        & no_deeper(p, c, PowerLevel(2), PowerLevel(1))
        & no_deeper(p, c, PowerLevel(3), PowerLevel(2));
    states_in_range(p, c) & (cpu_level_state(c) != 0) & kinds_fall
}
