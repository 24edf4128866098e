// Any call.
ghost use Rattle.std.specs.Prelude.{cond, ◌≡◌};
ghost use Rattle.paths.specs.Rows.{SameRows, lent_domains};
ghost use Rattle.in_place.specs.Any.{call_in, with_domains};

use crate::Stepped;
use crate::down::{cpu_off, cpu_suspend_start, system_suspend};
use crate::on::{cpu_on, set_suspend_mode};
use crate::wake::{cpu_suspend_finish, handle_cpu_boot};
use cpu_table::walk::{all_on, others_off};
use model::board::Tree;
use model::call::Call;
use model::code::Refusal;
use model::cpu::CpuPowerNode;
use model::limits::CPUS;
use model::state::SuspendMode;
use model::states::Platform;
use paths::DomainRows;

// What any call gives: its code, the record of the CPU that it names, and the mode. No Result, as `Stepped` is none.
#[derive(Clone, Copy)]
pub struct Moved {
    pub code: Result<(), Refusal>,
    pub node: CpuPowerNode,
    pub mode: SuspendMode,
}

// What a call gives that leaves the mode.
fn in_mode(mode: SuspendMode, x: Stepped) -> Moved
    ensures { result ≡ record { code = x.code; node = x.node; mode = mode } }
{
    Moved {
        code: x.code,
        node: x.node,
        mode,
    }
}

// The mode after a call that sets it.
fn mode_after(accepted: bool, wanted: SuspendMode, current: SuspendMode) -> SuspendMode
    ensures { result ≡ cond accepted wanted current }
{
    if accepted {
        return wanted;
    }
    current
}

// Any call: `by` is the record of its caller, `node` that of the CPU that it names.
pub fn call(
    tree: Tree,
    rows: &mut DomainRows,
    affinities: &[u8; CPUS],
    p: Platform,
    mode: SuspendMode,
    by: CpuPowerNode,
    node: CpuPowerNode,
    call: Call,
) -> Moved
    ensures same { SameRows rows.old rows.new }
    ensures value { with_domains result (lent_domains rows.new)
        ≡ call_in tree p mode affinities.now by node (lent_domains rows.old) call }
{
    match call {
        Call::On(caller, target, entry, address_good, answer) => {
            let x = cpu_on(
                tree.cpu_count,
                caller,
                by,
                target,
                node,
                entry,
                address_good,
                answer,
            );
            in_mode(mode, x)
        }
        Call::Off(caller, early_answer) => {
            in_mode(mode, cpu_off(tree, rows, p, caller, node, early_answer))
        }
        Call::Suspend(caller, pending, entry, asked) => {
            let x = cpu_suspend_start(tree, rows, p, mode, caller, node, pending, entry, asked);
            in_mode(mode, x)
        }
        Call::Finish(cpu) => in_mode(mode, cpu_suspend_finish(tree, rows, p, cpu, node)),
        Call::Boot(cpu) => in_mode(mode, handle_cpu_boot(tree, rows, p, cpu, node)),
        Call::SystemSuspend(caller, feature, pending, address_good, entry, asked) => {
            let last = others_off(affinities, tree.cpu_count, caller.0);
            let x = system_suspend(
                tree,
                rows,
                p,
                mode,
                caller,
                node,
                last,
                feature,
                pending,
                address_good,
                entry,
                asked,
            );
            in_mode(mode, x)
        }
        Call::SetMode(caller, feature, wanted) => {
            let last = others_off(affinities, tree.cpu_count, caller.0);
            let all = all_on(affinities, tree.cpu_count);
            let code = set_suspend_mode(
                tree.cpu_count,
                caller,
                by,
                last,
                all,
                mode,
                feature,
                wanted,
            );
            Moved {
                code,
                node,
                mode: mode_after(code.is_ok(), wanted, mode),
            }
        }
    }
}
