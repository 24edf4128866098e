// The calls of a CPU that goes down: off, suspend and system suspend.
ghost use Rattle.std.specs.Prelude.{◌≡◌};
ghost use Rattle.board_calls.specs.Board.{called, call_on, count_on, mode_on, platform_on, tree_on};
ghost use Rattle.cpu_table.specs.CpuTable.{cpu_table, others_off_bytes};
ghost use Rattle.in_place.specs.Stepped.{off_in, suspend_in, system_suspend_in};
ghost use Rattle.paths.specs.Rows.{domain_rows};

use board_calls::kept::{BOARD, BoardView, LEVELS};
use cpu_table::CpuTable;
use model::cpu::EntryPoint;
use model::limits::{CPUS, DOMAINS, REQUESTS};
use model::sorts::CpuNumber;
use model::states::CompositeState;
use paths::DomainRows;

// CPU_OFF: the caller turns itself off. The platform is asked early whether it may.
#[unsafe(no_mangle)]
pub extern "C" fn psci_cpu_off(
    board: &[u8; BOARD],
    parents: &[u8; DOMAINS],
    starts: &[u8; DOMAINS],
    ends: &[u8; DOMAINS],
    states: &mut [u8; DOMAINS],
    requests: &mut [u8; REQUESTS],
    suspends: &mut [u8; REQUESTS],
    copies: &mut [u8; DOMAINS],
    firsts: &[u8; CPUS],
    affinities: &mut [u8; CPUS],
    locals: &mut [u8; CPUS],
    helds: &mut [u8; CPUS],
    addresses: &mut [u64; CPUS],
    contexts: &mut [u64; CPUS],
    handed: &mut [u8; LEVELS],
    caller: u8,
    early_answer: u8,
) -> i32
    ensures { called result (domain_rows states.new requests.new suspends.new copies.new)
        (cpu_table firsts.now affinities.new locals.new helds.new addresses.new contexts.new) handed.new
        ≡ call_on (domain_rows states.old requests.old suspends.old copies.old)
        (cpu_table firsts.now affinities.old locals.old helds.old addresses.old contexts.old) handed.old caller
        (λ node d. off_in (tree_on board.now parents.now starts.now ends.now)
        (platform_on board.now) caller node d early_answer) }
{
    let view = BoardView {
        row: board,
        parents,
        starts,
        ends,
    };
    let mut rows = DomainRows {
        states,
        requests,
        suspends,
        copies,
    };
    let mut cpus = CpuTable {
        firsts,
        affinities,
        locals,
        helds,
        addresses,
        contexts,
    };
    board_calls::down::psci_cpu_off(
        view,
        &mut rows,
        &mut cpus,
        handed,
        CpuNumber(caller),
        early_answer,
    )
}

// CPU_SUSPEND up to its wait.
#[unsafe(no_mangle)]
pub extern "C" fn psci_cpu_suspend_start(
    board: &[u8; BOARD],
    parents: &[u8; DOMAINS],
    starts: &[u8; DOMAINS],
    ends: &[u8; DOMAINS],
    states: &mut [u8; DOMAINS],
    requests: &mut [u8; REQUESTS],
    suspends: &mut [u8; REQUESTS],
    copies: &mut [u8; DOMAINS],
    firsts: &[u8; CPUS],
    affinities: &mut [u8; CPUS],
    locals: &mut [u8; CPUS],
    helds: &mut [u8; CPUS],
    addresses: &mut [u64; CPUS],
    contexts: &mut [u64; CPUS],
    handed: &mut [u8; LEVELS],
    caller: u8,
    pending: bool,
    address: u64,
    context: u64,
    level0: u8,
    level1: u8,
    level2: u8,
    level3: u8,
) -> i32
    ensures { called result (domain_rows states.new requests.new suspends.new copies.new)
        (cpu_table firsts.now affinities.new locals.new helds.new addresses.new contexts.new) handed.new
        ≡ call_on (domain_rows states.old requests.old suspends.old copies.old)
        (cpu_table firsts.now affinities.old locals.old helds.old addresses.old contexts.old) handed.old caller
        (λ node d. suspend_in (tree_on board.now parents.now starts.now ends.now)
        (platform_on board.now) caller node d (mode_on board.now) pending (record { address = address; context = context })
        (record { level0 = level0; level1 = level1; level2 = level2; level3 = level3 })) }
{
    let view = BoardView {
        row: board,
        parents,
        starts,
        ends,
    };
    let mut rows = DomainRows {
        states,
        requests,
        suspends,
        copies,
    };
    let mut cpus = CpuTable {
        firsts,
        affinities,
        locals,
        helds,
        addresses,
        contexts,
    };
    let entry = EntryPoint { address, context };
    let asked = CompositeState {
        level0,
        level1,
        level2,
        level3,
    };
    board_calls::down::psci_cpu_suspend_start(
        view,
        &mut rows,
        &mut cpus,
        handed,
        CpuNumber(caller),
        pending,
        entry,
        asked,
    )
}

// SYSTEM_SUSPEND up to its wait: the last CPU that is on suspends to the states that the platform has for this.
#[unsafe(no_mangle)]
pub extern "C" fn psci_system_suspend(
    board: &[u8; BOARD],
    parents: &[u8; DOMAINS],
    starts: &[u8; DOMAINS],
    ends: &[u8; DOMAINS],
    states: &mut [u8; DOMAINS],
    requests: &mut [u8; REQUESTS],
    suspends: &mut [u8; REQUESTS],
    copies: &mut [u8; DOMAINS],
    firsts: &[u8; CPUS],
    affinities: &mut [u8; CPUS],
    locals: &mut [u8; CPUS],
    helds: &mut [u8; CPUS],
    addresses: &mut [u64; CPUS],
    contexts: &mut [u64; CPUS],
    handed: &mut [u8; LEVELS],
    caller: u8,
    feature: bool,
    pending: bool,
    address_good: bool,
    address: u64,
    context: u64,
    level0: u8,
    level1: u8,
    level2: u8,
    level3: u8,
) -> i32
    ensures { called result (domain_rows states.new requests.new suspends.new copies.new)
        (cpu_table firsts.now affinities.new locals.new helds.new addresses.new contexts.new) handed.new
        ≡ call_on (domain_rows states.old requests.old suspends.old copies.old)
        (cpu_table firsts.now affinities.old locals.old helds.old addresses.old contexts.old) handed.old caller
        (λ node d. system_suspend_in (tree_on board.now parents.now starts.now ends.now)
        (platform_on board.now) caller node d (mode_on board.now) feature
        (others_off_bytes affinities.old (count_on board.now) caller) pending address_good (record { address = address; context = context })
        (record { level0 = level0; level1 = level1; level2 = level2; level3 = level3 })) }
{
    let view = BoardView {
        row: board,
        parents,
        starts,
        ends,
    };
    let mut rows = DomainRows {
        states,
        requests,
        suspends,
        copies,
    };
    let mut cpus = CpuTable {
        firsts,
        affinities,
        locals,
        helds,
        addresses,
        contexts,
    };
    let entry = EntryPoint { address, context };
    let asked = CompositeState {
        level0,
        level1,
        level2,
        level3,
    };
    board_calls::down::psci_system_suspend(
        view,
        &mut rows,
        &mut cpus,
        handed,
        CpuNumber(caller),
        feature,
        pending,
        address_good,
        entry,
        asked,
    )
}
