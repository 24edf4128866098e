// Tables by level and CPU on lent rows: reads, stores, the minimum of a part of a level, and filled tables.
#![tactic(auto)]

ghost use Rattle.std.specs.Prelude.{◌+◌, ◌-◌, ◌≡◌, set};
ghost use Rattle.model.specs.Minimum.{minimum_of};
ghost use Rattle.model.specs.Span.{from_tob};
ghost use Rattle.model.specs.Table.{at_level, filled_of, level_row_of, levels_filled_of, place_of, set_at_level};

use model::limits::{CPUS, REQUESTS};
use model::sorts::{CpuNumber, PowerLevel};
use rows::cells::{at, put};
use rows::least::minimum;

// How many levels stand before a level in a table that starts at level 1; level 0 counts as level 1.
fn before(level: u8) -> usize
    ensures { result ≡ level - 1 }
{
    level.saturating_sub(1) as usize
}

// Where a CPU stands in a table by level and CPU.
pub fn place(level: PowerLevel, cpu: CpuNumber) -> usize
    ensures { result ≡ place_of level.0 cpu.0 }
{
    before(level.0) * CPUS + cpu.0 as usize
}

// What stands there; past the row's end it is 0.
pub fn at_level(row: &[u8], level: PowerLevel, cpu: CpuNumber) -> u8
    ensures { result ≡ at_level row.now level.0 cpu.0 }
{
    at(row, place(level, cpu))
}

// Stores a byte there; for a number that is no CPU's nothing is stored.
pub fn put_at_level(row: &mut [u8], level: PowerLevel, cpu: CpuNumber, v: u8)
    ensures { row.new ≡ set_at_level row.old level.0 cpu.0 v }
{
    if (cpu.0 as usize) < CPUS {
        put(row, place(level, cpu), v);
    }
}

// The shallowest state of a level for the CPUs from start on and before end; OFF where there is none. No `Span`: both callers read the two
// numbers from two rows.
pub fn minimum_at_level(row: &[u8], level: PowerLevel, start: u8, end: u8, off: u8) -> u8
    ensures { result ≡ minimum_of end (from_tob start end) (at_level row.now level.0) off }
{
    let from = place(level, CpuNumber(0));
    if from < row.len() {
        return minimum(&row[from..], start as usize, end as usize, off);
    }
    minimum(&row[0..0], start as usize, end as usize, off)
}

// The part of such a table that is of one level. (Other rows are walked from a place or from their front, to rows of other lengths.)
pub fn level_row(row: &[u8], level: PowerLevel) -> [u8; CPUS]
    ensures { result ≡ level_row_of row.now level.0 }
{
    let from = place(level, CpuNumber(0));
    let mut t = [0; CPUS];
    for (i, x) in t.iter_mut().enumerate() {
        *x = at(row, from + i);
    }
    t
}

// Stores a byte at each of n places from a start on. Any start and any n: the row may end before.
pub fn fill(row: &mut [u8], start: usize, n: u8, v: u8)
    ensures { row.new ≡ filled_of (λ _. v) start n row.old }
{
    let from = start.min(row.len());
    let count = (n as usize).min(row.len() - from);
    row[from..from + count].fill(v);
}

// A table by level and CPU that holds a byte for so many CPUs at levels 1 to max. With more CPUs than a level's part holds, its
// definition goes on into the next level's part, as `chunks_mut` would not.
#[tactic(auto, using(crate::proofs::Filled::levels_none, crate::proofs::Filled::levels_next))]
pub fn levels_filled(v: u8, cpus: u8, max: PowerLevel) -> [u8; REQUESTS]
    ensures { result ≡ levels_filled_of v cpus max.0 }
{
    let mut t = [0; REQUESTS];
    let levels = max.0 as usize;
    // a number: how many levels are below
    for i in 0..levels {
        fill(&mut t, i * CPUS, cpus, v);
    }
    t
}
