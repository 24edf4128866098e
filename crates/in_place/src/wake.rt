// The calls of a CPU that wakes: finish and boot.
// Two bodies: in one function, which takes both records by value, each took 15 ns more and missed its bar of speed.
ghost use Rattle.std.specs.Prelude.{◌≡◌};
ghost use Rattle.paths.specs.Rows.{SameRows, lent_domains};
ghost use Rattle.in_place.specs.Stepped.{boot_in, finish_in, outcome};

use crate::Stepped;
use checks::caller::for_cpu;
use checks::wake::{boot_code, finish_code};
use composite::all_run;
use cpu_steps::{booted, finished};
use model::board::Tree;
use model::cpu::CpuPowerNode;
use model::sorts::CpuNumber;
use model::states::Platform;
use paths::DomainRows;
use paths::ancestors::local_states_from_nodes;

// The rest of a suspend after its wait.
pub fn cpu_suspend_finish(
    tree: Tree,
    rows: &mut DomainRows,
    p: Platform,
    cpu: CpuNumber,
    node: CpuPowerNode,
) -> Stepped
    ensures same { SameRows rows.old rows.new }
    ensures value { outcome result (lent_domains rows.new)
        ≡ finish_in tree p cpu.0 node (lent_domains rows.old) }
{
    let code = for_cpu(cpu.0 < tree.cpu_count, finish_code(node));
    if code.is_ok() {
        let states = &*rows.states;
        let along = local_states_from_nodes(&tree.parents, states, p.max, node);
        rows.set_running(&tree.parents, p.max, node.parent, cpu);
        return Stepped {
            code: Ok(()),
            node: finished(p, node),
            states: along,
        };
    }
    Stepped {
        code,
        node,
        states: all_run(),
    }
}

// A CPU that is powered up: after CPU_ON, or from a suspend that lost its state.
pub fn handle_cpu_boot(
    tree: Tree,
    rows: &mut DomainRows,
    p: Platform,
    cpu: CpuNumber,
    node: CpuPowerNode,
) -> Stepped
    ensures same { SameRows rows.old rows.new }
    ensures value { outcome result (lent_domains rows.new)
        ≡ boot_in tree p cpu.0 node (lent_domains rows.old) }
{
    let code = for_cpu(cpu.0 < tree.cpu_count, boot_code(p, node));
    if code.is_ok() {
        let states = &*rows.states;
        let along = local_states_from_nodes(&tree.parents, states, p.max, node);
        rows.set_running(&tree.parents, p.max, node.parent, cpu);
        return Stepped {
            code: Ok(()),
            node: booted(node),
            states: along,
        };
    }
    Stepped {
        code,
        node,
        states: all_run(),
    }
}
