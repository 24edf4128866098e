// The calls of a CPU that wakes: finish and boot.
ghost use Rattle.std.specs.Prelude.{◌≡◌};
ghost use Rattle.board_calls.specs.Board.{called, call_on, platform_on, tree_on};
ghost use Rattle.cpu_table.specs.CpuTable.{cpu_table};
ghost use Rattle.in_place.specs.Stepped.{boot_in, finish_in};
ghost use Rattle.paths.specs.Rows.{domain_rows};

use board_calls::kept::{BOARD, BoardView, LEVELS};
use cpu_table::CpuTable;
use model::limits::{CPUS, DOMAINS, REQUESTS};
use model::sorts::CpuNumber;
use paths::DomainRows;

// The rest of a suspend after its wait.
#[unsafe(no_mangle)]
pub extern "C" fn psci_cpu_suspend_finish(
    board: &[u8; BOARD],
    parents: &[u8; DOMAINS],
    starts: &[u8; DOMAINS],
    ends: &[u8; DOMAINS],
    states: &mut [u8; DOMAINS],
    requests: &mut [u8; REQUESTS],
    suspends: &mut [u8; REQUESTS],
    copies: &mut [u8; DOMAINS],
    firsts: &[u8; CPUS],
    affinities: &mut [u8; CPUS],
    locals: &mut [u8; CPUS],
    helds: &mut [u8; CPUS],
    addresses: &mut [u64; CPUS],
    contexts: &mut [u64; CPUS],
    handed: &mut [u8; LEVELS],
    cpu: u8,
) -> i32
    ensures { called result (domain_rows states.new requests.new suspends.new copies.new)
        (cpu_table firsts.now affinities.new locals.new helds.new addresses.new contexts.new) handed.new
        ≡ call_on (domain_rows states.old requests.old suspends.old copies.old)
        (cpu_table firsts.now affinities.old locals.old helds.old addresses.old contexts.old) handed.old cpu
        (λ node d. finish_in (tree_on board.now parents.now starts.now ends.now)
        (platform_on board.now) cpu node d) }
{
    let view = BoardView {
        row: board,
        parents,
        starts,
        ends,
    };
    let mut rows = DomainRows {
        states,
        requests,
        suspends,
        copies,
    };
    let mut cpus = CpuTable {
        firsts,
        affinities,
        locals,
        helds,
        addresses,
        contexts,
    };
    board_calls::wake::psci_cpu_suspend_finish(view, &mut rows, &mut cpus, handed, CpuNumber(cpu))
}

// A CPU that is powered up: after CPU_ON, or from a suspend that lost its state. Its entry stays in the rows of addresses and contexts.
#[unsafe(no_mangle)]
pub extern "C" fn psci_handle_cpu_boot(
    board: &[u8; BOARD],
    parents: &[u8; DOMAINS],
    starts: &[u8; DOMAINS],
    ends: &[u8; DOMAINS],
    states: &mut [u8; DOMAINS],
    requests: &mut [u8; REQUESTS],
    suspends: &mut [u8; REQUESTS],
    copies: &mut [u8; DOMAINS],
    firsts: &[u8; CPUS],
    affinities: &mut [u8; CPUS],
    locals: &mut [u8; CPUS],
    helds: &mut [u8; CPUS],
    addresses: &mut [u64; CPUS],
    contexts: &mut [u64; CPUS],
    handed: &mut [u8; LEVELS],
    cpu: u8,
) -> i32
    ensures { called result (domain_rows states.new requests.new suspends.new copies.new)
        (cpu_table firsts.now affinities.new locals.new helds.new addresses.new contexts.new) handed.new
        ≡ call_on (domain_rows states.old requests.old suspends.old copies.old)
        (cpu_table firsts.now affinities.old locals.old helds.old addresses.old contexts.old) handed.old cpu
        (λ node d. boot_in (tree_on board.now parents.now starts.now ends.now)
        (platform_on board.now) cpu node d) }
{
    let view = BoardView {
        row: board,
        parents,
        starts,
        ends,
    };
    let mut rows = DomainRows {
        states,
        requests,
        suspends,
        copies,
    };
    let mut cpus = CpuTable {
        firsts,
        affinities,
        locals,
        helds,
        addresses,
        contexts,
    };
    board_calls::wake::psci_handle_cpu_boot(view, &mut rows, &mut cpus, handed, CpuNumber(cpu))
}
