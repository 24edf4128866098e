ghost use Rattle.std.specs.Prelude.{◌-◌, ◌≡◌, get_or};
ghost use Rattle.model.specs.Path.{above_of, level_at, local_states_of, on_path_of, stored_state_of};

use model::board::NO_PARENT;
use model::cpu::CpuPowerNode;
use model::sorts::{DomainNumber, PowerLevel};
use model::states::CompositeState;
use rows::cells::at;

// The stored byte of a domain's parent; past the row's end it is 0.
pub fn parent_byte(parents: &[u8], domain: u8) -> u8
    ensures { result ≡ get_or parents.now domain 0 }
{
    at(parents, domain as usize)
}

// The domain so many levels above a domain.
#[tactic(auto, using(crate::proofs::Path::above_none, crate::proofs::Path::above_turn))]
pub fn above(parents: &[u8], domain: DomainNumber, n: u8) -> DomainNumber
    ensures { result ≡ record { 0 = above_of parents.now domain.0 n } }
{
    let mut d = domain.0;
    // so many steps: the number is read by the proof alone
    for i in 0..n {
        d = parent_byte(parents, d);
    }
    DomainNumber(d)
}

// How many levels a level is above level 1.
fn over_first(level: PowerLevel) -> u8
    ensures { result ≡ level.0 - 1 }
{
    level.0.saturating_sub(1)
}

// The domain of a level on the path that starts at a level-1 domain.
pub fn on_path(parents: &[u8], first: DomainNumber, level: PowerLevel) -> DomainNumber
    ensures { result ≡ record { 0 = on_path_of parents.now first.0 level.0 } }
{
    above(parents, first, over_first(level))
}

// The level of a domain: MAX at the top, and one below its parent's elsewhere.
#[tactic(auto, using(crate::proofs::Path::level_whole, crate::proofs::Path::level_top, crate::proofs::Path::level_under, crate::proofs::Path::level_none))]
pub fn level_of(parents: &[u8], max: PowerLevel, domain: DomainNumber) -> PowerLevel
    ensures { result ≡ record { 0 = level_at parents.now max.0 domain.0 } }
{
    let top = max.0;
    let mut d = domain.0;
    // a number: how many levels the walk went up
    for i in 0..top {
        d = parent_byte(parents, d);
        if d == NO_PARENT {
            let level = top - i;
            return PowerLevel(level);
        }
    }
    PowerLevel(0)
}

// The stored state of a level along the path that starts at a level-1 domain, 0 above MAX.
pub fn stored_state<'a>(
    parents: &'a [u8],
    states: &'a [u8],
    max: PowerLevel,
    first: DomainNumber,
    level: PowerLevel,
) -> u8
    ensures { result ≡ stored_state_of parents.now states.now max.0 first.0 level.0 }
{
    let d = on_path(parents, first, level);
    if level.0 <= max.0 {
        return at(states, d.0 as usize);
    }
    0
}

// The stored states along a CPU's path, from its own up: the Rust's `set_local_states_from_nodes`.
pub fn local_states_from_nodes<'a>(
    parents: &'a [u8],
    states: &'a [u8],
    max: PowerLevel,
    cpu: CpuPowerNode,
) -> CompositeState
    ensures { result ≡ local_states_of parents.now states.now max.0 cpu }
{
    let first = cpu.parent;
    CompositeState {
        level0: cpu.local_state,
        level1: stored_state(parents, states, max, first, PowerLevel(1)),
        level2: stored_state(parents, states, max, first, PowerLevel(2)),
        level3: stored_state(parents, states, max, first, PowerLevel(3)),
    }
}
