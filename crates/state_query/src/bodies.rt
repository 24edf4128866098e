// The queries of a state, without the test of the state and of the number of the CPU that asks.
ghost use Rattle.std.specs.Prelude.{cond, ◌≡◌, leb};
ghost use Rattle.model.specs.Cpu.{onb};
ghost use Rattle.model.specs.declared.code.Refusal.TheVariants as code;
ghost use Rattle.model.specs.State.{cpu_at, max_at};
ghost use Rattle.model.specs.StateQuery.{all_onb, last_to_idle_at, others_offb};

use crate::nodes::{child_over, domain_over, node_at};
use cpu::is_on;
use cpu_rows::cpu_in;
use cpu_walk::{all_on_in, others_off_in};
use model::code::Refusal;
use model::sorts::{CpuNumber, PowerLevel};
use model::state::State;
use node_query::is_last_cpu_to_idle;
use states::platform::off;

// Is the CPU the last to idle at a level: always at level 0, and above it if its domain's record says so.
pub fn last_to_idle_at(s: State, level: PowerLevel, cpu: CpuNumber) -> Result<bool, Refusal>
    ensures { result ≡ last_to_idle_at s level.0 cpu }
{
    if level.0 == 0 {
        return Ok(true);
    }
    let node = node_at(s, level, domain_over(s, level, cpu));
    let child = child_over(s, level, cpu);
    is_last_cpu_to_idle(node, cpu, child, off(s.board.platform))
}

// Is the CPU the last to idle at a level? 109 for a level above MAX.
pub fn idle_query(s: State, cpu: CpuNumber, level: PowerLevel) -> Result<bool, Refusal>
    ensures { result ≡ cond (leb level.0 (max_at s)) (last_to_idle_at s level.0 cpu) (Err code.Outside) }
{
    if s.board.platform.max.0 < level.0 {
        return Err(Refusal::Outside);
    }
    last_to_idle_at(s, level, cpu)
}

// Is every CPU but this one Off? 104 for a CPU that is not On.
pub fn last_query(s: State, cpu: CpuNumber) -> Result<bool, Refusal>
    ensures { result ≡ cond (onb (cpu_at s cpu.0).affinity_info) (Ok (others_offb s cpu.0))
        (Err code.NotRunning) }
{
    let node = cpu_in(s.cpus, cpu);
    if !is_on(node.affinity_info) {
        return Err(Refusal::NotRunning);
    }
    Ok(others_off_in(s.cpus, s.tree.cpu_count, cpu.0))
}

// Is every CPU On?
pub fn on_query(s: State) -> Result<bool, Refusal>
    ensures { result ≡ Ok (all_onb s) }
{
    Ok(all_on_in(s.cpus, s.tree.cpu_count))
}
