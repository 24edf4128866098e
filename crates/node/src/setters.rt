ghost use Rattle.std.specs.Prelude.{cond, ◌≡◌, Err, Ok, set};
ghost use Rattle.model.specs.Node.{clear_suspend_state_of, local_state_of, new_of};
ghost use Rattle.model.specs.Node.{set_local_state_of, set_minimal_allowed_state_of, set_non_cpu_state_of};
ghost use Rattle.model.specs.Node.{set_requested_power_state_of, set_suspend_state_of};
ghost use Rattle.model.specs.Span.{holdsb};
ghost use Rattle.model.specs.declared.code.Refusal.TheVariants as code;

use model::code::Refusal;
use model::limits::{CPUS, DOMAINS};
use model::node::{NO_SUSPEND_STATE, NonCpuPowerNode, Span};
use model::sorts::{CpuNumber, DomainNumber};
use rows::cells::put;
use rows::least::minimum;
use spans::{holds, within};

// A new power domain: it is OFF, and nothing is under it.
pub fn new(parent: Option<DomainNumber>, off: u8) -> NonCpuPowerNode
    ensures { result ≡ new_of parent off }
{
    NonCpuPowerNode {
        parent,
        local_state: off,
        cpu_range: Span { start: 0, end: 0 },
        non_cpu_range: Span { start: 0, end: 0 },
        requested_states: [0; CPUS],
        suspend_states: [0; CPUS],
        non_cpu_states: [0; DOMAINS],
    }
}

// The state of the domain.
pub fn local_state(node: &NonCpuPowerNode) -> u8
    ensures { result ≡ local_state_of node.now }
{
    node.local_state
}

// Sets the state of the domain.
pub fn set_local_state(node: &mut NonCpuPowerNode, local_state: u8)
    ensures { node.new ≡ set_local_state_of node.old local_state }
{
    node.local_state = local_state;
}

// Stores a state at a number of the span; outside it nothing is stored, and the answer is 109.
fn store<const N: usize>(table: &mut [u8; N], span: Span, i: u8, state: u8) -> Result<(), Refusal>
    ensures answer { result ≡ cond (holdsb N span i) (Ok tt) (Err code.Outside) }
    ensures left { table.new ≡ cond (holdsb N span i) (set table.old i state) table.old }
{
    if !holds(N, span, i) {
        return Err(Refusal::Outside);
    }
    put(table, i as usize, state);
    Ok(())
}

// Stores the request of a CPU under the domain.
pub fn set_requested_power_state(
    node: &mut NonCpuPowerNode,
    cpu: CpuNumber,
    state: u8,
) -> Result<(), Refusal>
    ensures answer { result ≡ (set_requested_power_state_of node.old cpu state).code }
    ensures left { node.new ≡ (set_requested_power_state_of node.old cpu state).node }
{
    store(&mut node.requested_states, node.cpu_range, cpu.0, state)
}

// Stores the suspend state of a CPU under the domain.
pub fn set_suspend_state(
    node: &mut NonCpuPowerNode,
    cpu: CpuNumber,
    state: u8,
) -> Result<(), Refusal>
    ensures answer { result ≡ (set_suspend_state_of node.old cpu state).code }
    ensures left { node.new ≡ (set_suspend_state_of node.old cpu state).node }
{
    store(&mut node.suspend_states, node.cpu_range, cpu.0, state)
}

// Clears the suspend state of a CPU under the domain.
pub fn clear_suspend_state(node: &mut NonCpuPowerNode, cpu: CpuNumber) -> Result<(), Refusal>
    ensures answer { result ≡ (clear_suspend_state_of node.old cpu).code }
    ensures left { node.new ≡ (clear_suspend_state_of node.old cpu).node }
{
    set_suspend_state(node, cpu, NO_SUSPEND_STATE)
}

// Stores the copy of the state of a domain directly below.
pub fn set_non_cpu_state(
    node: &mut NonCpuPowerNode,
    child: DomainNumber,
    state: u8,
) -> Result<(), Refusal>
    ensures answer { result ≡ (set_non_cpu_state_of node.old child state).code }
    ensures left { node.new ≡ (set_non_cpu_state_of node.old child state).node }
{
    store(&mut node.non_cpu_states, node.non_cpu_range, child.0, state)
}

// Sets the state of the domain to the shallowest request of the CPUs under it.
pub fn set_minimal_allowed_state(node: &mut NonCpuPowerNode, off: u8) -> Result<(), Refusal>
    ensures answer { result ≡ (set_minimal_allowed_state_of node.old off).code }
    ensures left { node.new ≡ (set_minimal_allowed_state_of node.old off).node }
{
    let span = node.cpu_range;
    if !within(CPUS, span) {
        return Err(Refusal::Outside);
    }
    node.local_state = minimum(
        &node.requested_states,
        span.start as usize,
        span.end as usize,
        off,
    );
    Ok(())
}
