// What is stored, in bytes.
ghost use Rattle.std.specs.Prelude.{◌≡◌};
ghost use Rattle.model.specs.State.{cpu_at};
ghost use Rattle.traced_bytes.specs.Bytes.{affinity_byte, board_byte, counts_byte, cpu_byte, mode_byte};

use crate::out::entry_byte;
use cpu_rows::cpu_in;
use model::board::{Board, Tree};
use model::cpu::{AffinityInfo, CpuPowerNode};
use model::sorts::CpuNumber;
use model::state::{State, SuspendMode};
use rows::cells::at;

fn affinity_byte(affinity: AffinityInfo) -> u8
    ensures { result ≡ affinity_byte affinity }
{
    affinity as u8
}

// A byte of a CPU.
pub fn cpu_byte(cpu: CpuPowerNode, i: usize) -> u8
    ensures { result ≡ cpu_byte cpu i }
{
    if i < 3 {
        let head = [
            cpu.parent.0,
            affinity_byte(cpu.affinity_info),
            cpu.local_state,
        ];
        return at(&head, i);
    }
    entry_byte(cpu.entry_point, i - 3)
}

// A byte of a CPU by its number.
pub fn cpus_byte(s: State, k: u8, i: usize) -> u8
    ensures { result ≡ cpu_byte (cpu_at s k) i }
{
    cpu_byte(cpu_in(s.cpus, CpuNumber(k)), i)
}

pub fn mode_byte(mode: SuspendMode) -> u8
    ensures { result ≡ mode_byte mode }
{
    mode as u8
}

// The mode.
pub fn state_mode_byte(s: State) -> u8
    ensures { result ≡ mode_byte s.mode }
{
    mode_byte(s.mode)
}

// A byte of the board's numbers.
pub fn board_byte(board: Board, i: usize) -> u8
    ensures { result ≡ board_byte board i }
{
    let bytes = [
        board.platform.max.0,
        board.platform.states,
        board.platform.down,
        board.primary.0,
    ];
    at(&bytes, i)
}

// The counts of the domains and of the CPUs.
pub fn counts_byte(tree: Tree, i: usize) -> u8
    ensures { result ≡ counts_byte tree i }
{
    let counts = [tree.domain_count, tree.cpu_count];
    at(&counts, i)
}
