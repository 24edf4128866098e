// The calls that turn nothing off: on and set mode.
ghost use Rattle.std.specs.Prelude.{◌≡◌};
ghost use Rattle.in_place.specs.Stepped.{mode_in, on_in};

use crate::Stepped;
use checks::caller::for_caller;
use checks::mode::mode_code;
use checks::on::on_code;
use composite::all_run;
use cpu_steps::pended;
use model::code::Refusal;
use model::cpu::{CpuPowerNode, EntryPoint};
use model::sorts::CpuNumber;
use model::state::SuspendMode;

// CPU_ON: turns a CPU on. `by` is the caller's record, `node` the target's.
pub fn cpu_on(
    count: u8,
    caller: CpuNumber,
    by: CpuPowerNode,
    target: CpuNumber,
    node: CpuPowerNode,
    entry: EntryPoint,
    address_good: bool,
    answer: u8,
) -> Stepped
    ensures { result ≡ on_in count caller.0 by target.0 node entry address_good answer }
{
    let own = on_code(answer, target.0 < count, address_good, node.affinity_info);
    let code = for_caller(caller.0 < count, by, own);
    if code.is_ok() {
        return Stepped {
            code: Ok(()),
            node: pended(node, entry),
            states: all_run(),
        };
    }
    Stepped {
        code,
        node,
        states: all_run(),
    }
}

// PSCI_SET_SUSPEND_MODE: which code it gives. `last` is whether every other CPU is Off, `all` whether all are On.
pub fn set_suspend_mode(
    count: u8,
    caller: CpuNumber,
    by: CpuPowerNode,
    last: bool,
    all: bool,
    current: SuspendMode,
    feature: bool,
    mode: SuspendMode,
) -> Result<(), Refusal>
    ensures { result ≡ mode_in count caller.0 by feature current mode last all }
{
    let own = mode_code(feature, current, mode, last, all);
    for_caller(caller.0 < count, by, own)
}
