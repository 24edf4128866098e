// What a power domain's record, sound or not, says of its other CPUs: the queries of the Rust's `NonCpuPowerNode`.
#![tactic(auto)]

ghost use Rattle.std.specs.Prelude.{◌≡◌};
ghost use Rattle.model.specs.Node.{copy_at};
ghost use Rattle.model.specs.Query.{asked_insideb, get_osi_minimal_allowed_state_without_core_of, is_last_cpu_to_idle_of};
ghost use Rattle.model.specs.Query.{none_besideb, others_allow_of, state_answer_of, with_children_of};
ghost use Rattle.model.specs.Span.{span_minimum_without_of};

use model::code::Refusal;
use model::limits::{CPUS, DOMAINS};
use model::node::{NonCpuPowerNode, Span};
use model::sorts::{CpuNumber, DomainNumber};
use rows::least::minimum_without;
use rows::others::{allowed_without, none_beside_without};
use spans::holds;

// Are the CPU, and the child if one is given, in the domain's spans?
fn asked_inside(node: NonCpuPowerNode, cpu: CpuNumber, child: Option<DomainNumber>) -> bool
    ensures { result ≡ asked_insideb node cpu child }
{
    let has_cpu = holds(CPUS, node.cpu_range, cpu.0);
    match child {
        None => has_cpu,
        Some(d) => has_cpu & holds(DOMAINS, node.non_cpu_range, d.0),
    }
}

// Has no other CPU a suspend state beside a request that is not RUN?
fn none_beside(node: NonCpuPowerNode, cpu: CpuNumber) -> bool
    ensures { result ≡ none_besideb node cpu }
{
    none_beside_without(
        &node.requested_states,
        &node.suspend_states,
        node.cpu_range.start as usize,
        node.cpu_range.end as usize,
        cpu.0 as usize,
    )
}

// The shallowest that the other CPUs allow.
fn others_allow(node: NonCpuPowerNode, cpu: CpuNumber, off: u8) -> u8
    ensures { result ≡ others_allow_of node cpu off }
{
    allowed_without(
        &node.requested_states,
        &node.suspend_states,
        node.cpu_range.start as usize,
        node.cpu_range.end as usize,
        cpu.0 as usize,
        off,
    )
}

// The shallowest of a state and of the copies of the children in a span, but for one of them.
fn copies_without(node: NonCpuPowerNode, span: Span, one: DomainNumber, state: u8) -> u8
    ensures { result ≡ span_minimum_without_of span one.0 (copy_at node) state }
{
    minimum_without(
        &node.non_cpu_states,
        span.start as usize,
        span.end as usize,
        one.0 as usize,
        state,
    )
}

// The shallowest of a state and of the copies of the children other than the one given; where none is given, of no child.
#[tactic(auto, unfolding(model::specs::Minimum::minimum_of))]
fn with_children(node: NonCpuPowerNode, child: Option<DomainNumber>, state: u8) -> u8
    ensures { result ≡ with_children_of node child state }
{
    match child {
        None => { copies_without(node, Span { start: 0, end: 0 }, DomainNumber(0), state) }
        Some(d) => copies_without(node, node.non_cpu_range, d, state),
    }
}

// 109 for what is outside, 111 for a suspend state beside a request that is not RUN, else the state.
fn state_answer(inside: bool, none: bool, state: u8) -> Result<u8, Refusal>
    ensures { result ≡ state_answer_of inside none state }
{
    if !inside {
        return Err(Refusal::Outside);
    }
    if !none {
        return Err(Refusal::SuspendBesideRequest);
    }
    Ok(state)
}

// The state that the domain may take without regard to one CPU, and to the child on that CPU's path where it is given.
#[tactic(auto, unfolding(model::specs::Query::get_osi_minimal_allowed_state_without_core_of))]
pub fn get_osi_minimal_allowed_state_without_core(
    node: NonCpuPowerNode,
    cpu: CpuNumber,
    child: Option<DomainNumber>,
    off: u8,
) -> Result<u8, Refusal>
    ensures { result ≡ get_osi_minimal_allowed_state_without_core_of node cpu child off }
{
    let inside = asked_inside(node, cpu, child);
    let none = none_beside(node, cpu);
    let others = others_allow(node, cpu, off);
    let state = with_children(node, child, others);
    state_answer(inside, none, state)
}

// Is the CPU the last to idle: does nothing else keep the domain at RUN?
pub fn is_last_cpu_to_idle(
    node: NonCpuPowerNode,
    cpu: CpuNumber,
    child: Option<DomainNumber>,
    off: u8,
) -> Result<bool, Refusal>
    ensures { result ≡ is_last_cpu_to_idle_of node cpu child off }
{
    let state = get_osi_minimal_allowed_state_without_core(node, cpu, child, off)?;
    Ok(state != 0)
}
