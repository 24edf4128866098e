// A state that stands in bytes, every field of it: docs/REFERENCE.md, 'A state in bytes'.
#![tactic(auto)]

ghost use Rattle.std.specs.Prelude.{◌+◌, ◌≤◌, ◌≡◌, length};
ghost use Rattle.image.specs.Image.{affinity_in, board_in, cpu_in, cpus_in, domains_in, entry_in, mode_in, row_in, state_in};
ghost use Rattle.image.specs.Image.{tree_in};
ghost use Rattle.model.specs.Limits.{request_slots};
ghost use Rattle.model.specs.Table.{filled_of};
ghost use Rattle.script.specs.Bytes.{byte_at};

use cpu_rows::no_cpu;
use model::board::{Board, Tree};
use model::cpu::{AffinityInfo, CpuPowerNode, EntryPoint};
use model::limits::{CPUS, DOMAINS, ENTRIES, REQUESTS};
use model::sorts::{CpuNumber, DomainNumber, PowerLevel};
use model::state::{Domains, State, SuspendMode};
use model::states::Platform;
use numbers::read_u64;
use rows::cells::at;

// Fills a row from the bytes at a place on, up to the row's length, where `stored` of `fresh` goes up to that of its source: no one
// function is plainer.
fn fill<'a>(row: &'a mut [u8], bytes: &'a [u8], place: u16)
    requires { length row.old ≤ request_slots }
    ensures { row.new
        ≡ filled_of (λ i. byte_at bytes.now (place + i)) 0 (length row.old) row.old }
{
    for (i, byte) in row.iter_mut().enumerate() {
        *byte = at(bytes, place as usize + i);
    }
}

// The row that begins at a place.
fn row<const N: usize>(bytes: &[u8], place: u16) -> [u8; N]
    requires { N ≤ request_slots }
    ensures { result ≡ row_in N bytes.now place }
{
    let mut row = [0; N];
    fill(&mut row, bytes, place);
    row
}

// The affinity that a byte stands for: no TryFrom, for every byte stands for one; no From, for the type is of another crate.
pub fn affinity_in(byte: u8) -> AffinityInfo
    ensures { result ≡ affinity_in byte }
{
    match byte {
        0 => AffinityInfo::On,
        1 => AffinityInfo::Off,
        _ => AffinityInfo::OnPending,
    }
}

// The mode that a byte of the C row stands for: no `From`, for the type is of `model`, and `From` would have to stand there.
pub fn mode_in(byte: u8) -> SuspendMode
    ensures { result ≡ mode_in byte }
{
    match byte {
        0 => SuspendMode::PlatformCoordinated,
        _ => SuspendMode::OsInitiated,
    }
}

// The entry that three numbers of the C row stand for: no `From`, for the reason at `mode_in`.
pub fn entry_in(held: u8, address: u64, context: u64) -> Option<EntryPoint>
    ensures { result ≡ entry_in held address context }
{
    if held == 0 {
        return None;
    }
    Some(EntryPoint { address, context })
}

// The CPU whose bytes begin at a place.
fn cpu_in(bytes: &[u8], place: u32) -> CpuPowerNode
    ensures { result ≡ cpu_in bytes.now place }
{
    let first = place as usize;
    let address = read_u64(bytes, first + 4);
    let context = read_u64(bytes, first + 12);
    CpuPowerNode {
        parent: DomainNumber(at(bytes, first)),
        affinity_info: affinity_in(at(bytes, first + 1)),
        local_state: at(bytes, first + 2),
        entry_point: entry_in(at(bytes, first + 3), address, context),
    }
}

fn cpus_in(bytes: &[u8], place: u16) -> [CpuPowerNode; CPUS]
    ensures { result ≡ cpus_in bytes.now place }
{
    let nothing = no_cpu();
    let mut cpus = [nothing; CPUS];
    for (c, cpu) in cpus.iter_mut().enumerate() {
        *cpu = cpu_in(bytes, place as u32 + 20 * c as u32);
    }
    cpus
}

fn board_in(bytes: &[u8]) -> Board
    ensures { result ≡ board_in bytes.now }
{
    Board {
        platform: Platform {
            max: PowerLevel(at(bytes, 0)),
            states: at(bytes, 1),
            down: at(bytes, 2),
        },
        primary: CpuNumber(at(bytes, 3)),
        topology: row(bytes, 4),
    }
}

fn tree_in(bytes: &[u8]) -> Tree
    ensures { result ≡ tree_in bytes.now }
{
    Tree {
        domain_count: at(bytes, 21),
        cpu_count: at(bytes, 22),
        parents: row(bytes, 23),
        cpu_starts: row(bytes, 39),
        cpu_ends: row(bytes, 55),
        child_starts: row(bytes, 71),
        child_ends: row(bytes, 87),
    }
}

fn domains_in(bytes: &[u8]) -> Domains
    ensures { result ≡ domains_in bytes.now }
{
    Domains {
        states: row(bytes, 423),
        requests: row(bytes, 439),
        suspends: row(bytes, 487),
        copies: row(bytes, 535),
    }
}

// The state that bytes stand for, sound or not.
#[tactic(auto, unfolding(crate::specs::Image::state_in))]
pub fn state_in(bytes: &[u8]) -> State
    ensures { result ≡ state_in bytes.now }
{
    State {
        board: board_in(bytes),
        tree: tree_in(bytes),
        cpus: cpus_in(bytes, 103),
        domains: domains_in(bytes),
        mode: mode_in(at(bytes, 551)),
    }
}
