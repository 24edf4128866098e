// The calls of a CPU that goes down: off, suspend and system suspend.
ghost use Rattle.std.specs.Prelude.{◌≡◌};
ghost use Rattle.paths.specs.Rows.{SameRows, lent_domains};
ghost use Rattle.model.specs.declared.answer.Notice.{Notice};
ghost use Rattle.in_place.specs.Stepped.{decided_on, enter_in, entered_in, off_in, outcome, suspend_in, system_suspend_in};

use crate::Stepped;
use checks::caller::for_caller;
use checks::suspend::suspend_code;
use checks::system_suspend::system_suspend_code;
use composite::{all_off, all_run, level_found};
use coordinate::coordinate_state;
use cpu_steps::{suspended, turned_off};
use model::board::Tree;
use model::code::{Refusal, of_answer};
use model::cpu::{CpuPowerNode, EntryPoint};
use model::sorts::CpuNumber;
use model::state::SuspendMode;
use model::states::{CompositeState, Platform};
use paths::DomainRows;
use states::platform::off;
use states::request::find_highest_non_run_level;

// CPU_OFF: the caller turns itself off. The platform is asked early whether it may.
pub fn cpu_off(
    tree: Tree,
    rows: &mut DomainRows,
    p: Platform,
    caller: CpuNumber,
    node: CpuPowerNode,
    early_answer: u8,
) -> Stepped
    ensures same { SameRows rows.old rows.new }
    ensures value { outcome result (lent_domains rows.new)
        ≡ off_in tree p caller.0 node (lent_domains rows.old) early_answer }
{
    let code = for_caller(caller.0 < tree.cpu_count, node, of_answer(early_answer));
    if code.is_ok() {
        let resolved = coordinate_state(
            tree,
            rows.states,
            rows.requests,
            rows.copies,
            off(p),
            node.parent,
            caller,
            p.max,
            all_off(p),
        );
        return Stepped {
            code: Ok(()),
            node: turned_off(p, node),
            states: resolved,
        };
    }
    Stepped {
        code,
        node,
        states: all_run(),
    }
}

// A suspend is entered: only domains up to the highest affected level are touched.
fn enter(
    tree: Tree,
    rows: &mut DomainRows,
    p: Platform,
    caller: CpuNumber,
    node: CpuPowerNode,
    entry: EntryPoint,
    asked: CompositeState,
) -> Stepped
    ensures same { SameRows rows.old rows.new }
    ensures value { outcome result (lent_domains rows.new)
        ≡ entered_in tree p caller.0 node (lent_domains rows.old) asked entry }
{
    let upto = level_found(find_highest_non_run_level(p, asked));
    let resolved = coordinate_state(
        tree,
        rows.states,
        rows.requests,
        rows.copies,
        off(p),
        node.parent,
        caller,
        upto,
        asked,
    );
    Stepped {
        code: Ok(()),
        node: suspended(p, node, resolved, entry),
        states: resolved,
    }
}

// A suspend is entered where the code grants it, but not with an interrupt pending.
fn suspend(
    tree: Tree,
    rows: &mut DomainRows,
    p: Platform,
    caller: CpuNumber,
    node: CpuPowerNode,
    code: Result<(), Refusal>,
    pending: bool,
    entry: EntryPoint,
    asked: CompositeState,
) -> Stepped
    ensures same { SameRows rows.old rows.new }
    ensures value { (told : Notice) → outcome result (lent_domains rows.new)
        ≡ decided_on code node (lent_domains rows.old)
        (enter_in tree p caller.0 node (lent_domains rows.old) pending asked entry told) }
{
    if code.is_ok() {
        if pending {
            return Stepped {
                code: Ok(()),
                node,
                states: all_run(),
            };
        }
        return enter(tree, rows, p, caller, node, entry, asked);
    }
    Stepped {
        code,
        node,
        states: all_run(),
    }
}

// CPU_SUSPEND up to its wait.
pub fn cpu_suspend_start(
    tree: Tree,
    rows: &mut DomainRows,
    p: Platform,
    mode: SuspendMode,
    caller: CpuNumber,
    node: CpuPowerNode,
    pending: bool,
    entry: EntryPoint,
    asked: CompositeState,
) -> Stepped
    ensures same { SameRows rows.old rows.new }
    ensures value { outcome result (lent_domains rows.new)
        ≡ suspend_in tree p caller.0 node (lent_domains rows.old) mode pending entry asked }
{
    let own = suspend_code(p, mode, asked);
    let code = for_caller(caller.0 < tree.cpu_count, node, own);
    suspend(tree, rows, p, caller, node, code, pending, entry, asked)
}

// SYSTEM_SUSPEND up to its wait: the last CPU that is on suspends to the states that the platform has for this. `last` is whether every
// other CPU is Off.
pub fn system_suspend(
    tree: Tree,
    rows: &mut DomainRows,
    p: Platform,
    mode: SuspendMode,
    caller: CpuNumber,
    node: CpuPowerNode,
    last: bool,
    feature: bool,
    pending: bool,
    address_good: bool,
    entry: EntryPoint,
    asked: CompositeState,
) -> Stepped
    ensures same { SameRows rows.old rows.new }
    ensures value { outcome result (lent_domains rows.new)
        ≡ system_suspend_in tree p caller.0 node (lent_domains rows.old) mode feature last pending address_good entry asked }
{
    let own = system_suspend_code(p, mode, feature, last, address_good, asked);
    let code = for_caller(caller.0 < tree.cpu_count, node, own);
    suspend(tree, rows, p, caller, node, code, pending, entry, asked)
}
