// What an event did, in bytes: the answer and all that goes out, the whole state after it, and that state's queries.
// docs/REFERENCE.md, 'A request and its reply'.
#![tactic(auto)]

ghost use Rattle.std.specs.Prelude.{◌≡◌};
ghost use Rattle.traced.specs.Reply.{answer_to, board, event_of, going_out, power, queries};
ghost use Rattle.traced.specs.Reply.{reply_onto, started_of, tables_onto, tree};
ghost use Rattle.script.specs.Record.{read_of};
ghost use Rattle.script.specs.Run.{start_of};

pub mod table;
mod tables;

use crate::table::Table;
use crate::tables::lay;
use events::call;
use image::state_in;
use model::answer::CallAnswer;
use model::code::Refusal;
use model::state::State;
use outgoing::nothing_out;
use reader::read_record;
use rows::cells::at;
use script::record::Read;
use script_run::start;

// The bytes of a request, and of a reply. Its tables are laid at places that are numbers, as `reply_onto` says.
pub const REQUEST: usize = 581;

pub const REPLY: usize = 1254;

// Tables by place and size, as docs/REFERENCE.md lists them; a list of the same lines with a walk over it would be no shorter.

// The code and what goes out.
#[tactic(auto, unfolding(crate::specs::Reply::tables_onto))]
fn lay_going_out(out: &mut [u8], a: CallAnswer)
    ensures { out.new ≡ tables_onto a going_out 0 out.old }
{
    lay(out, 0, a, Table::Head, 1, 3);
    lay(out, 3, a, Table::HandedOut, 1, 17);
    lay(out, 20, a, Table::States, 1, 4);
    lay(out, 24, a, Table::Notices, 5, 17);
}

// The board.
#[tactic(auto, unfolding(crate::specs::Reply::tables_onto))]
fn lay_board(out: &mut [u8], a: CallAnswer)
    ensures { out.new ≡ tables_onto a board 109 out.old }
{
    lay(out, 109, a, Table::Board, 1, 4);
    lay(out, 113, a, Table::Topology, 1, 17);
    lay(out, 130, a, Table::Counts, 1, 2);
}

// The tree.
#[tactic(auto, unfolding(crate::specs::Reply::tables_onto))]
fn lay_tree(out: &mut [u8], a: CallAnswer)
    ensures { out.new ≡ tables_onto a tree 132 out.old }
{
    lay(out, 132, a, Table::Parents, 1, 16);
    lay(out, 148, a, Table::CpuStarts, 1, 16);
    lay(out, 164, a, Table::CpuEnds, 1, 16);
    lay(out, 180, a, Table::ChildStarts, 1, 16);
    lay(out, 196, a, Table::ChildEnds, 1, 16);
}

// What changes of the state.
#[tactic(auto, unfolding(crate::specs::Reply::tables_onto))]
fn lay_power(out: &mut [u8], a: CallAnswer)
    ensures { out.new ≡ tables_onto a power 212 out.old }
{
    lay(out, 212, a, Table::Cpus, 16, 20);
    lay(out, 532, a, Table::DomainStates, 1, 16);
    lay(out, 548, a, Table::Requests, 1, 48);
    lay(out, 596, a, Table::Suspends, 1, 48);
    lay(out, 644, a, Table::Copies, 1, 16);
    lay(out, 660, a, Table::Mode, 1, 1);
}

// The queries.
#[tactic(auto, unfolding(crate::specs::Reply::tables_onto))]
fn lay_queries(out: &mut [u8], a: CallAnswer)
    ensures { out.new ≡ tables_onto a queries 661 out.old }
{
    lay(out, 661, a, Table::AllOn, 1, 1);
    lay(out, 662, a, Table::IsLast, 1, 16);
    lay(out, 678, a, Table::LastToIdle, 16, 4);
    lay(out, 742, a, Table::Allowed, 16, 16);
    lay(out, 998, a, Table::AllowedBesideChild, 16, 16);
}

// Writes an answer; what has no room is dropped.
#[tactic(auto, unfolding(crate::specs::Reply::reply_onto, crate::specs::Reply::tables_onto))]
pub fn write_reply(out: &mut [u8], a: CallAnswer)
    ensures { out.new ≡ reply_onto a out.old }
{
    lay_going_out(out, a);
    lay_board(out, a);
    lay_tree(out, a);
    lay_power(out, a);
    lay_queries(out, a);
}

// The start on a fresh board.
pub fn started(bytes: &[u8]) -> CallAnswer
    ensures { result ≡ started_of (start_of bytes.now) }
{
    let begun = start(bytes);
    CallAnswer {
        code: begun.code,
        out: nothing_out(),
        state: begun.state,
    }
}

// An event from a state; 108 where the record is none.
pub fn event(state: State, bytes: &[u8]) -> CallAnswer
    ensures { result ≡ event_of state (read_of state.board.platform.max.0 bytes.now) }
{
    let Read::Event(made, next) = read_record(bytes, state.board.platform.max) else {
        return CallAnswer {
            code: Err(Refusal::Malformed),
            out: nothing_out(),
            state,
        };
    };
    call(state, made)
}

// The answer to a request: a kind, 2 for a start and else an event; a record; for an event the state before it. The kind
// stays a byte, for it is read once and matched in the same line.
#[tactic(auto, unfolding(crate::specs::Reply::answer_to))]
pub fn answer(request: &[u8; REQUEST]) -> CallAnswer
    ensures { result ≡ answer_to request.now }
{
    let bytes = &request[..];
    if at(bytes, 0) == 2 {
        return started(&bytes[1..29]);
    }
    event(state_in(&bytes[29..REQUEST]), &bytes[1..29])
}
