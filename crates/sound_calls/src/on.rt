// The calls that turn nothing off: on and set mode.
ghost use Rattle.std.specs.Prelude.{◌≡◌};
ghost use Rattle.model.specs.Calls.{cpu_on_of, set_suspend_mode_of};

use checks::caller::for_caller;
use checks::mode::mode_code;
use checks::on::on_code;
use cpu_rows::{cpu_in, with_cpu_record};
use cpu_steps::pended;
use cpu_walk::{all_on_in, others_off_in};
use model::answer::CallAnswer;
use model::cpu::EntryPoint;
use model::sorts::CpuNumber;
use model::state::{State, SuspendMode};
use outgoing::{nothing_out, refused};

// CPU_ON: turns a CPU on. The platform says whether the address is good, and what comes of its own part.
#[tactic(auto, unfolding(model::specs::Answer::decided, model::specs::Calls::cpu_on_of))]
pub fn cpu_on(
    mut state: State,
    caller: CpuNumber,
    target: CpuNumber,
    entry: EntryPoint,
    address_good: bool,
    answer: u8,
) -> CallAnswer
    ensures { result ≡ cpu_on_of state caller target entry address_good answer }
{
    let cpus = state.cpus;
    let count = state.tree.cpu_count;
    let node = cpu_in(cpus, target);
    let own = on_code(answer, target.0 < count, address_good, node.affinity_info);
    let code = for_caller(caller.0 < count, cpu_in(cpus, caller), own);
    let granted = code.is_ok();
    if granted {
        let next = with_cpu_record(cpus, target, pended(node, entry));
        state.cpus = next;
        return CallAnswer {
            code: Ok(()),
            out: nothing_out(),
            state,
        };
    }
    refused(state, code)
}

// PSCI_SET_SUSPEND_MODE: sets who coordinates the power states.
#[tactic(auto, unfolding(model::specs::Answer::decided, model::specs::Calls::set_suspend_mode_of))]
pub fn set_suspend_mode(
    state: State,
    caller: CpuNumber,
    feature: bool,
    mode: SuspendMode,
) -> CallAnswer
    ensures { result ≡ set_suspend_mode_of state caller feature mode }
{
    let count = state.tree.cpu_count;
    let last = others_off_in(state.cpus, count, caller.0);
    let own = mode_code(
        feature,
        state.mode,
        mode,
        last,
        all_on_in(state.cpus, count),
    );
    let code = for_caller(caller.0 < count, cpu_in(state.cpus, caller), own);
    if code.is_ok() {
        return CallAnswer {
            code: Ok(()),
            out: nothing_out(),
            state: State { mode, ..state },
        };
    }
    refused(state, code)
}
