ghost use Rattle.std.specs.Prelude.{◌≡◌};
ghost use Rattle.model.specs.Composite.{cpu_level_state_of, highest_level_state_of, level_in_rangeb, state_at, states_in_rangeb};

use crate::platform::state_in_range;
use model::sorts::PowerLevel;
use model::states::{CompositeState, Platform};

// The state of a level; past the last level it is RUN.
pub fn state_at(c: CompositeState, level: PowerLevel) -> u8
    ensures { result ≡ state_at c level.0 }
{
    match level.0 {
        0 => c.level0,
        1 => c.level1,
        2 => c.level2,
        3 => c.level3,
        _ => 0,
    }
}

// The state of the CPU level.
pub fn cpu_level_state(c: CompositeState) -> u8
    ensures { result ≡ cpu_level_state_of c }
{
    c.level0
}

// The state of the highest level of the topology.
pub fn highest_level_state(p: Platform, c: CompositeState) -> u8
    ensures { result ≡ highest_level_state_of p c }
{
    state_at(c, p.max)
}

// Is the state of a level in range: up to MAX a state of the platform, above it 0?
fn level_in_range(p: Platform, c: CompositeState, level: PowerLevel) -> bool
    ensures { result ≡ level_in_rangeb p c level.0 }
{
    let s = state_at(c, level);
    if level.0 <= p.max.0 {
        return state_in_range(p, s);
    }
    s == 0
}

// Are the states in range at every level? Four lines, one a level: elsewhere another test stands in them, and no more is shared than `&`.
#[tactic(auto, unfolding(model::specs::Below::every))]
pub fn states_in_range(p: Platform, c: CompositeState) -> bool
    ensures { result ≡ states_in_rangeb p c }
{
    level_in_range(p, c, PowerLevel(0))
        & level_in_range(p, c, PowerLevel(1))
        & level_in_range(p, c, PowerLevel(2))
        & level_in_range(p, c, PowerLevel(3))
}
