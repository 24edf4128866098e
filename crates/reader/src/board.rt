// The board, which stands first.
ghost use Rattle.std.specs.Prelude.{◌≡◌};
ghost use Rattle.script.specs.Record.{board_recordb, read_board_of};

use crate::fields::{cpu_at, kind_in, size_in};
use model::sorts::PowerLevel;
use model::states::Platform;
use rows::cells;
use script::limits::TOPOLOGY;
use script::record::BoardRecord;

// Is it a board record: of the length that its topology length says, and not cut?
fn is_board(input: &[u8]) -> bool
    ensures { result ≡ board_recordb input.now }
{
    let size = size_in(input);
    let topology = cells::at(input, 8) as usize;
    (kind_in(input) == 16) & (size == TOPOLOGY + topology) & (size <= input.len())
}

// The board: MAX, states, first power-down state, primary, topology length, topology; a missing one is 108.
#[tactic(auto, unfolding(script::specs::Record::read_board_of))]
pub fn read_board(input: &[u8]) -> Option<BoardRecord>
    ensures { result ≡ read_board_of input.now }
{
    if !is_board(input) {
        return None;
    }
    let platform = Platform {
        max: PowerLevel(cells::at(input, 4)),
        states: cells::at(input, 5),
        down: cells::at(input, 6),
    };
    Some(BoardRecord {
        platform,
        primary: cpu_at(input, 7),
        next: size_in(input),
    })
}
