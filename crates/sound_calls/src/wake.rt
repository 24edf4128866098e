// The calls of a CPU that wakes: finish and boot.
ghost use Rattle.std.specs.Prelude.{◌≡◌};
ghost use Rattle.model.specs.Calls.{cpu_suspend_finish_of, handle_cpu_boot_of};

use crate::acted::acted;
use bodies::{boot, finish};
use checks::caller::for_cpu;
use checks::wake::{boot_code, finish_code};
use cpu_rows::cpu_in;
use model::answer::CallAnswer;
use model::sorts::CpuNumber;
use model::state::State;
use outgoing::refused;

// The rest of a suspend after its wait. What it shares with the next, and with cpu_off, is reads of the state, `refused` and `acted`.
#[tactic(auto, unfolding(model::specs::Answer::decided, model::specs::Calls::cpu_suspend_finish_of))]
pub fn cpu_suspend_finish(state: State, cpu: CpuNumber) -> CallAnswer
    ensures { result ≡ cpu_suspend_finish_of state cpu }
{
    let node = cpu_in(state.cpus, cpu);
    let code = for_cpu(cpu.0 < state.tree.cpu_count, finish_code(node));
    if code.is_err() {
        return refused(state, code);
    }
    acted(
        state,
        cpu,
        finish(state.tree, state.domains, state.board.platform, cpu, node),
    )
}

// A CPU that is powered up: after CPU_ON, or from a suspend that lost its state.
#[tactic(auto, unfolding(model::specs::Answer::decided, model::specs::Calls::handle_cpu_boot_of))]
pub fn handle_cpu_boot(state: State, cpu: CpuNumber) -> CallAnswer
    ensures { result ≡ handle_cpu_boot_of state cpu }
{
    let node = cpu_in(state.cpus, cpu);
    let code = for_cpu(
        cpu.0 < state.tree.cpu_count,
        boot_code(state.board.platform, node),
    );
    if code.is_err() {
        return refused(state, code);
    }
    acted(
        state,
        cpu,
        boot(state.tree, state.domains, state.board.platform, cpu, node),
    )
}
