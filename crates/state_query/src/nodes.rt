ghost use Rattle.std.specs.Prelude.{◌≡◌, get_or};
ghost use Rattle.model.specs.State.{domain_over};
ghost use Rattle.model.specs.StateQuery.{child_over, node_at, parent_of_byte};
ghost use Rattle.model.specs.Tree.{child_span_at, cpu_span_at};

use cpu_rows::cpu_in;
use levels::level_row;
use model::board::{NO_PARENT, Tree};
use model::node::{NonCpuPowerNode, Span};
use model::sorts::{CpuNumber, DomainNumber, PowerLevel};
use model::state::State;
use paths::ancestors::{on_path, parent_byte};
use rows::cells::at;

// The parent that a byte stands for.
pub fn parent_of_byte(b: u8) -> Option<DomainNumber>
    ensures { result ≡ parent_of_byte b }
{
    (b != NO_PARENT).then_some(DomainNumber(b))
}

// The span that stands at a domain's number in two rows.
fn span_in<'a>(starts: &'a [u8], ends: &'a [u8], domain: DomainNumber) -> Span
    ensures { result ≡ record { start = get_or starts.now domain.0 0; end = get_or ends.now domain.0 0 } }
{
    let i = domain.0 as usize;
    Span {
        start: at(starts, i),
        end: at(ends, i),
    }
}

// The stored span of the CPUs under a domain.
pub fn cpu_span_at(tree: Tree, domain: DomainNumber) -> Span
    ensures { result ≡ cpu_span_at tree domain.0 }
{
    span_in(&tree.cpu_starts, &tree.cpu_ends, domain)
}

// The stored span of the domains directly below a domain.
pub fn child_span_at(tree: Tree, domain: DomainNumber) -> Span
    ensures { result ≡ child_span_at tree domain.0 }
{
    span_in(&tree.child_starts, &tree.child_ends, domain)
}

// The node record of a domain of a level.
pub fn node_at(s: State, level: PowerLevel, domain: DomainNumber) -> NonCpuPowerNode
    ensures { result ≡ node_at s level.0 domain.0 }
{
    // two parts by name: lent from the state, their rows would have the whole of it copied
    let tree = s.tree;
    let domains = s.domains;
    NonCpuPowerNode {
        parent: parent_of_byte(parent_byte(&tree.parents, domain.0)),
        local_state: at(&domains.states, domain.0 as usize),
        cpu_range: cpu_span_at(tree, domain),
        non_cpu_range: child_span_at(tree, domain),
        requested_states: level_row(&domains.requests, level),
        suspend_states: level_row(&domains.suspends, level),
        non_cpu_states: domains.copies,
    }
}

// The domain of a level over a CPU, by what is stored.
pub fn domain_over(s: State, level: PowerLevel, cpu: CpuNumber) -> DomainNumber
    ensures { result ≡ record { 0 = domain_over s level.0 cpu.0 } }
{
    let node = cpu_in(s.cpus, cpu);
    let parents = s.tree.parents;
    on_path(&parents, node.parent, level)
}

// The domain below the one of a level on a CPU's path; below level 1 there is none.
pub fn child_over(s: State, level: PowerLevel, cpu: CpuNumber) -> Option<DomainNumber>
    ensures { result ≡ child_over s level.0 cpu.0 }
{
    if 2 <= level.0 {
        let below = level.0 - 1;
        return Some(domain_over(s, PowerLevel(below), cpu));
    }
    None
}
