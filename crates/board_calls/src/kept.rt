// What the calls share: the board's row, and what is kept of an outcome.
ghost use Rattle.std.specs.Prelude.{cond, ◌≡◌};
ghost use Rattle.board_calls.specs.Board.{count_on, handed_bytes, mode_on, platform_on, record_kept, states_kept, tree_of};
ghost use Rattle.cpu_table.specs.CpuTable.{SameCpus, lent_cpus};
ghost use Rattle.model.specs.Numbers.{number_of};

use cpu_table::CpuTable;
use image::mode_in;
use in_place::Stepped;
use model::board::Tree;
use model::code::number;
use model::limits::{DOMAINS, HIGHEST_MAX};
use model::sorts::{CpuNumber, PowerLevel};
use model::state::SuspendMode;
use model::states::Platform;
use rows::cells::at;

// The bytes of the board's row: MAX, how many states there are, d, how many CPUs there are, the mode. C keeps them so.
pub const BOARD: usize = 5;

// A state for each level, the CPU's among them.
pub const LEVELS: usize = HIGHEST_MAX as usize + 1;

// The platform, of the board's row, which C keeps; no From, for the type is of another crate.
pub fn platform_on(board: &[u8; BOARD]) -> Platform
    ensures { result ≡ platform_on board.now }
{
    Platform {
        max: PowerLevel(at(board, 0)),
        states: at(board, 1),
        down: at(board, 2),
    }
}

// How many CPUs there are.
pub fn count_on(board: &[u8; BOARD]) -> u8
    ensures { result ≡ count_on board.now }
{
    at(board, 3)
}

// The mode.
pub fn mode_on(board: &[u8; BOARD]) -> SuspendMode
    ensures { result ≡ mode_on board.now }
{
    mode_in(at(board, 4))
}

// What a board has beside the rows that calls change: its own row, and those of the tree.
#[derive(Clone, Copy)]
pub struct BoardView<'a> {
    pub row: &'a [u8; BOARD],
    pub parents: &'a [u8; DOMAINS],
    pub starts: &'a [u8; DOMAINS],
    pub ends: &'a [u8; DOMAINS],
}

impl BoardView<'_> {
    // The tree, but for what no call reads.
    pub fn tree(self) -> Tree
        ensures { result ≡ tree_of self.entry }
    {
        let BoardView {
            row,
            parents,
            starts,
            ends,
        } = self;
        Tree {
            domain_count: 0,
            cpu_count: count_on(row),
            parents: *parents,
            cpu_starts: *starts,
            cpu_ends: *ends,
            child_starts: [0; DOMAINS],
            child_ends: [0; DOMAINS],
        }
    }
}

// Gives back the number of an outcome; if it is 0, the record is stored.
pub fn keep(cpus: &mut CpuTable, cpu: CpuNumber, done: Stepped) -> i32
    ensures same { SameCpus cpus.old cpus.new }
    ensures value { result ≡ number_of done.code }
    ensures rows { lent_cpus cpus.new ≡ record_kept (lent_cpus cpus.old) cpu.0 done }
{
    if done.code.is_ok() {
        cpus.store_cpu(cpu, done.node);
        return 0;
    }
    number(done.code)
}

// If it is accepted, the states go out.
pub fn hand(handed: &mut [u8; LEVELS], done: Stepped)
    ensures { handed.new ≡ states_kept handed.old done }
{
    let states = done.states;
    if done.code.is_ok() {
        *handed = [states.level0, states.level1, states.level2, states.level3];
        return;
    }
}
