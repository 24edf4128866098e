// Boards as they are built, with their counts of CPUs and domains.
use crate::topologies::platform;
use crate::write::Board;
use fresh::fresh;
use lines::say;
use model::sorts::CpuNumber;
use soundness::sound;

// Does the board start, in a sound state, with these counts?
fn starts(board: Board, cpus: u8, domains: u8) -> bool {
    let a = fresh(platform(board.max, 4, 2), CpuNumber(0), board.topology);
    a.code.is_ok()
        && a.state.tree.cpu_count == cpus
        && a.state.tree.domain_count == domains
        && sound(a.state)
}

// Says the counts of a board.
fn has(max: u8, topology: &[u8], cpus: u8, domains: u8) {
    let board = Board { max, topology };
    say(
        format_args!("{board} starts sound; its count of CPUs is {cpus}, of domains {domains}"),
        starts(board, cpus, domains),
    );
}

pub(super) fn run() {
    has(1, &[1, 1], 1, 1);
    has(1, &[1, 4], 4, 1);
    has(2, &[1, 1, 4], 4, 2);
    has(1, &[2, 2, 2], 4, 2);
    has(2, &[1, 2, 4, 2], 6, 3);
    has(2, &[1, 8, 2, 2, 2, 2, 2, 2, 2, 2], 16, 9);
    has(3, &[1, 2, 2, 2, 3, 3, 3, 4], 13, 7);
}
