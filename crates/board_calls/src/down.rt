// The calls of a CPU that goes down: off, suspend and system suspend.
ghost use Rattle.std.specs.Prelude.{◌≡◌};
ghost use Rattle.board_calls.specs.Board.{called, call_on, count_on, mode_on, platform_on, tree_of};
ghost use Rattle.cpu_table.specs.CpuTable.{SameCpus, lent_cpus, others_off_bytes};
ghost use Rattle.in_place.specs.Stepped.{off_in, suspend_in, system_suspend_in};
ghost use Rattle.paths.specs.Rows.{SameRows, lent_domains};

use crate::kept::{BoardView, LEVELS, count_on, hand, keep, mode_on, platform_on};
use cpu_table::CpuTable;
use cpu_table::walk::others_off;
use in_place::down::{cpu_off, cpu_suspend_start, system_suspend};
use model::cpu::EntryPoint;
use model::sorts::CpuNumber;
use model::states::CompositeState;
use paths::DomainRows;

// CPU_OFF: the caller turns itself off. The platform is asked early whether it may.
pub fn psci_cpu_off(
    board: BoardView,
    rows: &mut DomainRows,
    cpus: &mut CpuTable,
    handed: &mut [u8; LEVELS],
    caller: CpuNumber,
    early_answer: u8,
) -> i32
    ensures same_rows { SameRows rows.old rows.new }
    ensures same_cpus { SameCpus cpus.old cpus.new }
    ensures value { called result (lent_domains rows.new) (lent_cpus cpus.new) handed.new
        ≡ call_on (lent_domains rows.old) (lent_cpus cpus.old) handed.old caller.0
        (λ node d. off_in (tree_of board.entry) (platform_on board.entry.row.now) caller.0 node d early_answer) }
{
    let node = cpus.cpu_in(caller);
    let tree = board.tree();
    let p = platform_on(board.row);
    let done = cpu_off(tree, rows, p, caller, node, early_answer);
    hand(handed, done);
    keep(cpus, caller, done)
}

// CPU_SUSPEND up to its wait.
pub fn psci_cpu_suspend_start(
    board: BoardView,
    rows: &mut DomainRows,
    cpus: &mut CpuTable,
    handed: &mut [u8; LEVELS],
    caller: CpuNumber,
    pending: bool,
    entry: EntryPoint,
    asked: CompositeState,
) -> i32
    ensures same_rows { SameRows rows.old rows.new }
    ensures same_cpus { SameCpus cpus.old cpus.new }
    ensures value { called result (lent_domains rows.new) (lent_cpus cpus.new) handed.new
        ≡ call_on (lent_domains rows.old) (lent_cpus cpus.old) handed.old caller.0
        (λ node d. suspend_in (tree_of board.entry) (platform_on board.entry.row.now) caller.0 node d
        (mode_on board.entry.row.now) pending entry asked) }
{
    let node = cpus.cpu_in(caller);
    let tree = board.tree();
    let p = platform_on(board.row);
    let mode = mode_on(board.row);
    let done = cpu_suspend_start(tree, rows, p, mode, caller, node, pending, entry, asked);
    hand(handed, done);
    keep(cpus, caller, done)
}

// SYSTEM_SUSPEND up to its wait: the last CPU that is on suspends to the states that the platform has for this.
pub fn psci_system_suspend(
    board: BoardView,
    rows: &mut DomainRows,
    cpus: &mut CpuTable,
    handed: &mut [u8; LEVELS],
    caller: CpuNumber,
    feature: bool,
    pending: bool,
    address_good: bool,
    entry: EntryPoint,
    asked: CompositeState,
) -> i32
    ensures same_rows { SameRows rows.old rows.new }
    ensures same_cpus { SameCpus cpus.old cpus.new }
    ensures value { called result (lent_domains rows.new) (lent_cpus cpus.new) handed.new
        ≡ call_on (lent_domains rows.old) (lent_cpus cpus.old) handed.old caller.0
        (λ node d. system_suspend_in (tree_of board.entry) (platform_on board.entry.row.now) caller.0 node d
        (mode_on board.entry.row.now) feature
        (others_off_bytes (lent_cpus cpus.old).affinities (count_on board.entry.row.now) caller.0)
        pending address_good entry asked) }
{
    let node = cpus.cpu_in(caller);
    let tree = board.tree();
    let p = platform_on(board.row);
    let mode = mode_on(board.row);
    let affinities = &*cpus.affinities;
    let last = others_off(affinities, count_on(board.row), caller.0);
    let done = system_suspend(
        tree,
        rows,
        p,
        mode,
        caller,
        node,
        last,
        feature,
        pending,
        address_good,
        entry,
        asked,
    );
    hand(handed, done);
    keep(cpus, caller, done)
}
