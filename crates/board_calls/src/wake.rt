// The calls of a CPU that wakes: finish and boot.
ghost use Rattle.std.specs.Prelude.{◌≡◌};
ghost use Rattle.board_calls.specs.Board.{called, call_on, platform_on, tree_of};
ghost use Rattle.cpu_table.specs.CpuTable.{SameCpus, lent_cpus};
ghost use Rattle.in_place.specs.Stepped.{boot_in, finish_in};
ghost use Rattle.paths.specs.Rows.{SameRows, lent_domains};

use crate::kept::{BoardView, LEVELS, hand, keep, platform_on};
use cpu_table::CpuTable;
use in_place::wake::{cpu_suspend_finish, handle_cpu_boot};
use model::sorts::CpuNumber;
use paths::DomainRows;

// The rest of a suspend after its wait.
pub fn psci_cpu_suspend_finish(
    board: BoardView,
    rows: &mut DomainRows,
    cpus: &mut CpuTable,
    handed: &mut [u8; LEVELS],
    cpu: CpuNumber,
) -> i32
    ensures same_rows { SameRows rows.old rows.new }
    ensures same_cpus { SameCpus cpus.old cpus.new }
    ensures value { called result (lent_domains rows.new) (lent_cpus cpus.new) handed.new
        ≡ call_on (lent_domains rows.old) (lent_cpus cpus.old) handed.old cpu.0
        (λ node d. finish_in (tree_of board.entry) (platform_on board.entry.row.now) cpu.0 node d) }
{
    let node = cpus.cpu_in(cpu);
    let tree = board.tree();
    let p = platform_on(board.row);
    let done = cpu_suspend_finish(tree, rows, p, cpu, node);
    hand(handed, done);
    keep(cpus, cpu, done)
}

// A CPU that is powered up: after CPU_ON, or from a suspend that lost its state. Its entry stays in the rows of addresses and contexts.
pub fn psci_handle_cpu_boot(
    board: BoardView,
    rows: &mut DomainRows,
    cpus: &mut CpuTable,
    handed: &mut [u8; LEVELS],
    cpu: CpuNumber,
) -> i32
    ensures same_rows { SameRows rows.old rows.new }
    ensures same_cpus { SameCpus cpus.old cpus.new }
    ensures value { called result (lent_domains rows.new) (lent_cpus cpus.new) handed.new
        ≡ call_on (lent_domains rows.old) (lent_cpus cpus.old) handed.old cpu.0
        (λ node d. boot_in (tree_of board.entry) (platform_on board.entry.row.now) cpu.0 node d) }
{
    let node = cpus.cpu_in(cpu);
    let tree = board.tree();
    let p = platform_on(board.row);
    let done = handle_cpu_boot(tree, rows, p, cpu, node);
    hand(handed, done);
    keep(cpus, cpu, done)
}
