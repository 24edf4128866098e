ghost use Rattle.std.specs.Prelude.{◌≡◌, ◌<◌};
ghost use Rattle.model.specs.Node.{assign_cpu_of, assign_non_cpu_of};
ghost use Rattle.model.specs.Span.{grown_of};

use model::code::Refusal;
use model::limits::{CPUS, DOMAINS};
use model::node::{NO_SUSPEND_STATE, NonCpuPowerNode, Span};
use model::sorts::{CpuNumber, DomainNumber};
use rows::cells::put;
use spans::{empty, grows};

// The span grown by a number.
fn grown(span: Span, i: u8) -> Span
    requires { i < 255 }
    ensures { result ≡ grown_of span i }
{
    let end = i + 1;
    if empty(span) {
        return Span { start: i, end };
    }
    Span { end, ..span }
}

// Enters a CPU into the span, with request OFF and no suspend state.
pub fn assign_cpu(node: &mut NonCpuPowerNode, cpu: CpuNumber, off: u8) -> Result<(), Refusal>
    ensures answer { result ≡ (assign_cpu_of node.old cpu off).code }
    ensures left { node.new ≡ (assign_cpu_of node.old cpu off).node }
{
    if !grows(CPUS, node.cpu_range, cpu.0) {
        return Err(Refusal::Outside);
    }
    node.cpu_range = grown(node.cpu_range, cpu.0);
    put(&mut node.requested_states, cpu.0 as usize, off);
    put(&mut node.suspend_states, cpu.0 as usize, NO_SUSPEND_STATE);
    Ok(())
}

// Enters a domain directly below into the child span, with its copy OFF. What it shares with `assign_cpu` is `grows` and `grown`.
pub fn assign_non_cpu(
    node: &mut NonCpuPowerNode,
    child: DomainNumber,
    off: u8,
) -> Result<(), Refusal>
    ensures answer { result ≡ (assign_non_cpu_of node.old child off).code }
    ensures left { node.new ≡ (assign_non_cpu_of node.old child off).node }
{
    if !grows(DOMAINS, node.non_cpu_range, child.0) {
        return Err(Refusal::Outside);
    }
    node.non_cpu_range = grown(node.non_cpu_range, child.0);
    put(&mut node.non_cpu_states, child.0 as usize, off);
    Ok(())
}
