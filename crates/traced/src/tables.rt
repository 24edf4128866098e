// The tables of a reply, laid into it one after the other.
ghost use Rattle.std.specs.Prelude.{◌≡◌};
ghost use Rattle.model.specs.Table.{filled_of};
ghost use Rattle.script.specs.Bytes.{byte_at};
ghost use Rattle.traced.specs.Reply.{cell_of, rows_onto};

use crate::table::Table;
use model::answer::CallAnswer;
use model::sorts::PowerLevel;
use rows::cells::{at, put};
use states::composite::state_at;
use traced_bytes::out::{handed_byte, head_byte, notices_byte};
use traced_bytes::queries::{all_on_byte, allowed_byte, beside_byte, last_byte, last_to_idle_byte};
use traced_bytes::stored::{board_byte, counts_byte, cpus_byte, state_mode_byte};

// A byte of a row. By value: lent from the answer, the row would have the whole answer copied for each byte.
fn row_byte<const N: usize>(row: [u8; N], i: usize) -> u8
    ensures { result ≡ byte_at row.entry i }
{
    at(&row, i)
}

// What stands in a table, by row and column. A match and no table of functions: `rt ci` refuses function pointers that are handed
// out, and the definition `cell_of` goes by these names.
#[tactic(auto, unfolding(crate::specs::Reply::cell_of))]
fn cell(a: CallAnswer, table: Table, row: u8, column: u8) -> u8
    ensures { result ≡ cell_of a table row column }
{
    let i = column as usize;
    match table {
        Table::Head => head_byte(a, i),
        Table::HandedOut => handed_byte(a.out, i),
        Table::States => state_at(a.out.states, PowerLevel(column)),
        Table::Notices => notices_byte(a.out, row, i),
        Table::Board => board_byte(a.state.board, i),
        Table::Topology => row_byte(a.state.board.topology, i),
        Table::Counts => counts_byte(a.state.tree, i),
        Table::Parents => row_byte(a.state.tree.parents, i),
        Table::CpuStarts => row_byte(a.state.tree.cpu_starts, i),
        Table::CpuEnds => row_byte(a.state.tree.cpu_ends, i),
        Table::ChildStarts => row_byte(a.state.tree.child_starts, i),
        Table::ChildEnds => row_byte(a.state.tree.child_ends, i),
        Table::Cpus => cpus_byte(a.state, row, i),
        Table::DomainStates => row_byte(a.state.domains.states, i),
        Table::Requests => row_byte(a.state.domains.requests, i),
        Table::Suspends => row_byte(a.state.domains.suspends, i),
        Table::Copies => row_byte(a.state.domains.copies, i),
        Table::Mode => state_mode_byte(a.state),
        Table::AllOn => all_on_byte(a.state),
        Table::IsLast => last_byte(a.state, column),
        Table::LastToIdle => last_to_idle_byte(a.state, row, column),
        Table::Allowed => allowed_byte(a.state, row, column),
        Table::AllowedBesideChild => beside_byte(a.state, row, column),
    }
}

// A row of a table, from a place on.
fn lay_row(out: &mut [u8], place: u32, a: CallAnswer, table: Table, row: u8, columns: u8)
    ensures { out.new ≡ filled_of (cell_of a table row) place columns out.old }
{
    for i in 0..columns {
        put(out, place as usize + i as usize, cell(a, table, row, i));
    }
}

// The rows of a table, one after the other from a place on.
pub(super) fn lay(out: &mut [u8], place: u16, a: CallAnswer, table: Table, rows: u8, columns: u8)
    ensures { out.new ≡ rows_onto a table place columns rows out.old }
{
    for k in 0..rows {
        lay_row(
            out,
            place as u32 + columns as u32 * k as u32,
            a,
            table,
            k,
            columns,
        );
    }
}
