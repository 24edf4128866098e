ghost use Rattle.std.specs.Prelude.{cond, ◌≡◌, eqb, get_or, length, ℕ};
ghost use Rattle.model.specs.Cpu.{new_of};
ghost use Rattle.model.specs.Limits.{cpu_limit, entry_limit};
ghost use Rattle.model.specs.State.{no_cpu};
ghost use Rattle.model.specs.Table.{domain_row_of, table_of};
ghost use Rattle.model.specs.Tree.{no_parent};

use cpu::new;
use cpu_rows::no_cpu;
use levels::fill;
use model::board::NO_PARENT;
use model::cpu::CpuPowerNode;
use model::limits::{CPUS, DOMAINS, ENTRIES};
use model::sorts::DomainNumber;
use rows::cells::{at, put};

// A topology as it is stored. It goes from its first entry to its last, where `fill` of `image` begins anywhere and ends with the row:
// no one function is plainer.
pub(super) fn stored(topology: &[u8]) -> [u8; ENTRIES]
    ensures { result ≡ table_of entry_limit 0 (λ i. get_or topology.now i 0) (length topology.now) }
{
    let mut row = [0; ENTRIES];
    for (i, entry) in topology.iter().enumerate() {
        put(&mut row, i, *entry);
    }
    row
}

// A table in which so many places are used, and the rest hold what stands for nothing. What is past its end is dropped.
fn table<T: Copy, const N: usize, F: Fn(u8) -> T + Drop>(nothing: T, count: u8, entry: F) -> [T; N]
    requires { F.IsAlwaysCallable entry }
    ensures { (e : ℕ → T) → ((k : ℕ) (x : T) → F.post entry k x → x ≡ e k) → result ≡ table_of N nothing e count }
{
    let mut table = [nothing; N];
    // a number, since `entry` takes it
    for k in 0..count {
        put(&mut table, k as usize, entry(k));
    }
    table
}

// Every CPU Off, in state OFF, with no entry point.
pub(super) fn cpus_off(parents: [u8; CPUS], count: u8, off: u8) -> [CpuPowerNode; CPUS]
    ensures { result ≡ table_of cpu_limit no_cpu (λ c. new_of (record { 0 = get_or parents c 0 }) off) count }
{
    table(
        no_cpu(),
        count,
        |c| new(DomainNumber(at(&parents, c as usize)), off),
    )
}

// Every domain OFF.
pub(super) fn states_off(count: u8, off: u8) -> [u8; DOMAINS]
    ensures { result ≡ domain_row_of (λ _. off) count }
{
    let mut row = [0; DOMAINS];
    fill(&mut row, 0, count, off);
    row
}

// The copy of a domain of this parent: OFF, and 0 at the top.
fn copy_off(parent: u8, off: u8) -> u8
    ensures { result ≡ cond (eqb parent no_parent) 0 off }
{
    if parent == NO_PARENT {
        return 0;
    }
    off
}

// Every copy OFF; a top domain has none.
pub(super) fn copies_off(parents: [u8; DOMAINS], count: u8, off: u8) -> [u8; DOMAINS]
    ensures { result ≡ domain_row_of (λ k. cond (eqb (get_or parents k 0) no_parent) 0 off) count }
{
    table(0, count, |k| copy_off(at(&parents, k as usize), off))
}
