// The start of a board: its rows are filled with the fresh state.
ghost use Rattle.std.specs.Prelude.{◌≡◌};
ghost use Rattle.board_calls.specs.Start.{board_rows, started, start_on};
ghost use Rattle.cpu_table.specs.CpuTable.{cpu_table};
ghost use Rattle.model.specs.Fresh.{fresh_of};
ghost use Rattle.paths.specs.Rows.{domain_rows};

use board_calls::kept::BOARD;
use model::limits::{CPUS, DOMAINS, REQUESTS};
use model::sorts::{CpuNumber, PowerLevel};
use model::states::Platform;
use paths::DomainRows;

// Starts a board: 0, or 101 if it is not acceptable, and then no row changes.
#[unsafe(no_mangle)]
pub extern "C" fn psci_start(
    topology: &[u8],
    max: u8,
    state_count: u8,
    down: u8,
    primary: u8,
    board: &mut [u8; BOARD],
    parents: &mut [u8; DOMAINS],
    starts: &mut [u8; DOMAINS],
    ends: &mut [u8; DOMAINS],
    states: &mut [u8; DOMAINS],
    requests: &mut [u8; REQUESTS],
    suspends: &mut [u8; REQUESTS],
    copies: &mut [u8; DOMAINS],
    firsts: &mut [u8; CPUS],
    affinities: &mut [u8; CPUS],
    locals: &mut [u8; CPUS],
    helds: &mut [u8; CPUS],
    addresses: &mut [u64; CPUS],
    contexts: &mut [u64; CPUS],
) -> i32
    ensures { started result (board_rows board.new parents.new starts.new ends.new
        (domain_rows states.new requests.new suspends.new copies.new)
        (cpu_table firsts.new affinities.new locals.new helds.new addresses.new contexts.new))
        ≡ start_on (board_rows board.old parents.old starts.old ends.old
        (domain_rows states.old requests.old suspends.old copies.old)
        (cpu_table firsts.old affinities.old locals.old helds.old addresses.old contexts.old))
        (fresh_of (record { max = record { 0 = max }; states = state_count; down = down }) (record { 0 = primary }) topology.now) }
{
    let p = Platform {
        max: PowerLevel(max),
        states: state_count,
        down,
    };
    let mut rows = DomainRows {
        states,
        requests,
        suspends,
        copies,
    };
    board_calls::start::psci_start(
        topology,
        p,
        CpuNumber(primary),
        board,
        parents,
        starts,
        ends,
        &mut rows,
        firsts,
        affinities,
        locals,
        helds,
        addresses,
        contexts,
    )
}
