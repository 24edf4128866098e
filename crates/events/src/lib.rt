// An event of a script: who makes its call, whom it names, and what it answers on a whole state.
#![tactic(auto)]

ghost use Rattle.std.specs.Prelude.{◌≡◌};
ghost use Rattle.in_place.specs.Any.{caller_of};
ghost use Rattle.model.specs.Calls.{call_of};
ghost use Rattle.script.specs.AnswerRecord.{named_of};

use model::answer::CallAnswer;
use model::call::Call;
use model::sorts::CpuNumber;
use model::state::State;
use psci::Psci;

// The CPU that an event names: the target for on.
pub fn named_cpu(call: Call) -> CpuNumber
    ensures { result ≡ named_of call }
{
    match call {
        Call::On(_, target, ..) => target,
        _ => caller(call),
    }
}

// The CPU that makes it.
pub fn caller(call: Call) -> CpuNumber
    ensures { result ≡ caller_of call }
{
    match call {
        Call::On(cpu, ..)
        | Call::Off(cpu, ..)
        | Call::Suspend(cpu, ..)
        | Call::Finish(cpu)
        | Call::Boot(cpu)
        | Call::SystemSuspend(cpu, ..)
        | Call::SetMode(cpu, ..) => cpu,
    }
}

// The answer to a call. A match and no table of functions: each call has fields of its own.
pub fn call(state: State, call: Call) -> CallAnswer
    ensures { result ≡ call_of state call }
{
    let psci = Psci { state };
    match call {
        Call::On(caller, target, entry, address_good, answer) => {
            psci.cpu_on(caller, target, entry, address_good, answer)
        }
        Call::Off(caller, early_answer) => psci.cpu_off(caller, early_answer),
        Call::Suspend(caller, pending, entry, asked) => {
            psci.cpu_suspend_start(caller, pending, entry, asked)
        }
        Call::Finish(cpu) => psci.cpu_suspend_finish(cpu),
        Call::Boot(cpu) => psci.handle_cpu_boot(cpu),
        Call::SystemSuspend(caller, feature, pending, address_good, entry, asked) => {
            psci.system_suspend(caller, feature, pending, address_good, entry, asked)
        }
        Call::SetMode(caller, feature, mode) => psci.set_suspend_mode(caller, feature, mode),
    }
}
