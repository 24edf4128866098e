// The fields of a record, by their places: what is left of the input starts with the record. A place is a byte, so that a
// field that is read in parts needs no test.
ghost use Rattle.std.specs.Prelude.{◌≡◌, ◌||◌, eqb, leb};
ghost use Rattle.script.specs.Record.{cpu_in, entry_in, flag_in, flagb, kind_in, mode_in, size_in, states_in, zero_aboveb};

use model::cpu::EntryPoint;
use model::sorts::{CpuNumber, PowerLevel};
use model::state::SuspendMode;
use model::states::CompositeState;
use numbers::{read_u16, read_u64};
use rows::cells;

// The record's length.
pub fn size_in(rest: &[u8]) -> usize
    ensures { result ≡ size_in rest.now }
{
    read_u16(rest, 0) as usize
}

// The record's kind.
pub fn kind_in(rest: &[u8]) -> u16
    ensures { result ≡ kind_in rest.now }
{
    read_u16(rest, 2)
}

// A CPU.
pub fn cpu_at(rest: &[u8], place: u8) -> CpuNumber
    ensures { result ≡ cpu_in rest.now place }
{
    CpuNumber(cells::at(rest, place as usize))
}

// An address, and then a context.
pub fn entry_at(rest: &[u8], place: u8) -> EntryPoint
    ensures { result ≡ entry_in rest.now place }
{
    let at = place as usize;
    EntryPoint {
        address: read_u64(rest, at),
        context: read_u64(rest, at + 8),
    }
}

// Four states.
pub fn states_at(rest: &[u8], place: u8) -> CompositeState
    ensures { result ≡ states_in rest.now place }
{
    let at = place as usize;
    CompositeState {
        level0: cells::at(rest, at),
        level1: cells::at(rest, at + 1),
        level2: cells::at(rest, at + 2),
        level3: cells::at(rest, at + 3),
    }
}

// Does a flag stand there: 0 or 1?
pub fn is_flag(rest: &[u8], place: u8) -> bool
    ensures { result ≡ flagb rest.now place }
{
    cells::at(rest, place as usize) <= 1
}

// A flag.
pub fn flag(rest: &[u8], place: u8) -> bool
    ensures { result ≡ flag_in rest.now place }
{
    cells::at(rest, place as usize) == 1
}

// A mode: 0 is platform-coordinated, 1 OS-initiated. Not `image::mode_in`: a byte above 1 is another mode there.
pub fn mode_at(rest: &[u8], place: u8) -> SuspendMode
    ensures { result ≡ mode_in rest.now place }
{
    if flag(rest, place) {
        return SuspendMode::OsInitiated;
    }
    SuspendMode::PlatformCoordinated
}

// Is the level not above MAX, or its state 0? (The tests of a level elsewhere share no more with it than the comparison.)
fn zero_at(max: PowerLevel, level: PowerLevel, state: u8) -> bool
    ensures { result ≡ (leb level.0 max.0 || eqb state 0) }
{
    (level.0 <= max.0) | (state == 0)
}

// Are the states above MAX 0? The four levels are written out, as `every` unfolds to them.
#[tactic(auto, unfolding(model::specs::Below::every))]
pub fn zero_above(max: PowerLevel, c: CompositeState) -> bool
    ensures { result ≡ zero_aboveb max.0 c }
{
    zero_at(max, PowerLevel(0), c.level0)
        & zero_at(max, PowerLevel(1), c.level1)
        & zero_at(max, PowerLevel(2), c.level2)
        & zero_at(max, PowerLevel(3), c.level3)
}
