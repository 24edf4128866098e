// The queries of a state, a byte for each answer.
ghost use Rattle.std.specs.Prelude.{◌≡◌};
ghost use Rattle.traced_bytes.specs.Queries.{all_on_byte, allowed_byte, asked_node, belowb, beside_byte, last_byte, last_to_idle_byte};
ghost use Rattle.traced_bytes.specs.Queries.{state_byte, test_byte};

use crate::out::flag_byte;
use answers::code_byte;
use model::board::NO_PARENT;
use model::code::Refusal;
use model::sorts::{CpuNumber, DomainNumber, PowerLevel};
use model::state::State;
use node_query::get_osi_minimal_allowed_state_without_core;
use paths::ancestors::{level_of, parent_byte};
use state_query::nodes::node_at;
use state_query::{are_all_cpus_on, is_last_cpu, is_last_cpu_to_idle_at_power_level};
use states::platform::off;

fn test_byte(a: Result<bool, Refusal>) -> u8
    ensures { result ≡ test_byte a }
{
    state_byte(a.map(|holds| flag_byte(holds)))
}

fn state_byte(a: Result<u8, Refusal>) -> u8
    ensures { result ≡ state_byte a }
{
    match a {
        Ok(state) => state,
        Err(refusal) => code_byte(Err(refusal)),
    }
}

pub fn all_on_byte(s: State) -> u8
    ensures { result ≡ all_on_byte s }
{
    test_byte(are_all_cpus_on(s))
}

pub fn last_byte(s: State, c: u8) -> u8
    ensures { result ≡ last_byte s c }
{
    if c < s.tree.cpu_count {
        return test_byte(is_last_cpu(s, CpuNumber(c)));
    }
    0
}

pub fn last_to_idle_byte(s: State, c: u8, level: u8) -> u8
    ensures { result ≡ last_to_idle_byte s c level }
{
    if c < s.tree.cpu_count {
        return test_byte(is_last_cpu_to_idle_at_power_level(s, CpuNumber(c), PowerLevel(level)));
    }
    0
}

// What the record of a domain allows.
fn asked_node(s: State, k: u8, c: u8, child: Option<DomainNumber>) -> u8
    ensures { result ≡ asked_node s k c child }
{
    let domain = DomainNumber(k);
    let platform = s.board.platform;
    let parents = s.tree.parents;
    let level = level_of(&parents, platform.max, domain);
    let node = node_at(s, level, domain);
    state_byte(get_osi_minimal_allowed_state_without_core(node, CpuNumber(c), child, off(platform)))
}

pub fn allowed_byte(s: State, k: u8, c: u8) -> u8
    ensures { result ≡ allowed_byte s k c }
{
    if (k < s.tree.domain_count) & (c < s.tree.cpu_count) {
        return asked_node(s, k, c, None);
    }
    0
}

// Has the domain a parent?
fn below(s: State, k: u8) -> bool
    ensures { result ≡ belowb s k }
{
    let parents = s.tree.parents;
    let parent = parent_byte(&parents, k);
    (k < s.tree.domain_count) & (parent != NO_PARENT)
}

pub fn beside_byte(s: State, k: u8, c: u8) -> u8
    ensures { result ≡ beside_byte s k c }
{
    if below(s, k) & (c < s.tree.cpu_count) {
        let parents = s.tree.parents;
        let parent = parent_byte(&parents, k);
        return asked_node(s, parent, c, Some(DomainNumber(k)));
    }
    0
}
