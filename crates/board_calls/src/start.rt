// The start of a board: its rows are filled with the fresh state.
ghost use Rattle.std.specs.Prelude.{◌≡◌};
ghost use Rattle.board_calls.specs.Start.{board_bytes, board_rows, started, start_on};
ghost use Rattle.cpu_table.specs.CpuTable.{cpu_table};
ghost use Rattle.model.specs.Fresh.{fresh_of};
ghost use Rattle.paths.specs.Rows.{SameRows, lent_domains};

use crate::kept::BOARD;
use cpu_table::CpuRows;
use cpu_table::tables::rows_of;
use fresh::fresh;
use model::board::Tree;
use model::code::number;
use model::limits::{CPUS, DOMAINS};
use model::sorts::CpuNumber;
use model::state::{Domains, State};
use model::states::Platform;
use paths::DomainRows;

// The board's row.
fn fill_board(board: &mut [u8; BOARD], p: Platform, count: u8)
    ensures { board.new ≡ board_bytes p count }
{
    *board = [p.max.0, p.states, p.down, count, 0];
}

// The rows of the tree. Three by themselves, as a `BoardView` lends them to be read.
fn fill_tree(
    parents: &mut [u8; DOMAINS],
    starts: &mut [u8; DOMAINS],
    ends: &mut [u8; DOMAINS],
    tree: Tree,
)
    ensures parents_after { parents.new ≡ tree.parents }
    ensures starts_after { starts.new ≡ tree.cpu_starts }
    ensures ends_after { ends.new ≡ tree.cpu_ends }
{
    let Tree {
        parents: above,
        cpu_starts: from,
        cpu_ends: to,
        ..
    } = tree;
    *parents = above;
    *starts = from;
    *ends = to;
}

// The rows of the domains.
fn fill_domains(rows: &mut DomainRows, domains: Domains)
    ensures same { SameRows rows.old rows.new }
    ensures value { lent_domains rows.new ≡ domains }
{
    let Domains {
        states,
        requests,
        suspends,
        copies,
    } = domains;
    *rows.states = states;
    *rows.requests = requests;
    *rows.suspends = suspends;
    *rows.copies = copies;
}

// The rows of the CPUs. Six by themselves: a start alone stores the CPUs' domains, which a `CpuTable` lends to be read.
fn fill_cpus(
    firsts: &mut [u8; CPUS],
    affinities: &mut [u8; CPUS],
    locals: &mut [u8; CPUS],
    helds: &mut [u8; CPUS],
    addresses: &mut [u64; CPUS],
    contexts: &mut [u64; CPUS],
    rows: CpuRows,
)
    ensures { cpu_table firsts.new affinities.new locals.new helds.new addresses.new
        contexts.new ≡ rows }
{
    let CpuRows {
        firsts: own_firsts,
        affinities: own_affinities,
        locals: own_locals,
        helds: own_helds,
        addresses: own_addresses,
        contexts: own_contexts,
    } = rows;
    *firsts = own_firsts;
    *affinities = own_affinities;
    *locals = own_locals;
    *helds = own_helds;
    *addresses = own_addresses;
    *contexts = own_contexts;
}

// Starts a board: 0, or 101 if it is not acceptable, and then no row changes.
pub fn psci_start(
    topology: &[u8],
    p: Platform,
    primary: CpuNumber,
    board: &mut [u8; BOARD],
    parents: &mut [u8; DOMAINS],
    starts: &mut [u8; DOMAINS],
    ends: &mut [u8; DOMAINS],
    rows: &mut DomainRows,
    firsts: &mut [u8; CPUS],
    affinities: &mut [u8; CPUS],
    locals: &mut [u8; CPUS],
    helds: &mut [u8; CPUS],
    addresses: &mut [u64; CPUS],
    contexts: &mut [u64; CPUS],
) -> i32
    ensures same { SameRows rows.old rows.new }
    ensures value { started result (board_rows board.new parents.new starts.new ends.new
        (lent_domains rows.new)
        (cpu_table firsts.new affinities.new locals.new helds.new addresses.new contexts.new))
        ≡ start_on (board_rows board.old parents.old starts.old ends.old
        (lent_domains rows.old)
        (cpu_table firsts.old affinities.old locals.old helds.old addresses.old contexts.old))
        (fresh_of p primary topology.now) }
{
    let made = fresh(p, primary, topology);
    if made.code.is_ok() {
        let s = made.state;
        fill_board(board, s.board.platform, s.tree.cpu_count);
        fill_tree(parents, starts, ends, s.tree);
        fill_domains(rows, s.domains);
        fill_cpus(
            firsts,
            affinities,
            locals,
            helds,
            addresses,
            contexts,
            rows_of(s.cpus),
        );
        return 0;
    }
    number(made.code)
}
