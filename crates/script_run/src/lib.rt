// A script: its start on a fresh board, and the run of its events.
#![tactic(auto)]

mod event;

ghost use Rattle.std.specs.Prelude.{◌≡◌, length};
ghost use Rattle.cpu_table.specs.CpuTable.{SameCpus, lent_cpus};
ghost use Rattle.kept.specs.Lengths.{Lengths};
ghost use Rattle.model.specs.Limits.{cpu_limit, domain_limit, request_slots};
ghost use Rattle.model.specs.SoundTest.{soundb};
ghost use Rattle.paths.specs.Rows.{SameRows, lent_domains};
ghost use Rattle.script.specs.Run.{out_after, run_of, start_of};
ghost use Rattle.script_run.specs.Rows.{Carried, run_answer, state_in};

use crate::event::event;
use answers::write_answer;
use cpu_table::CpuTable;
use cpu_table::tables::rows_of;
use fresh::{fresh, no_state};
use model::board::{Board, Tree};
use model::code::Refusal;
use model::cpu::CpuPowerNode;
use model::limits::{CPUS, DOMAINS, REQUESTS};
use model::state::{State, SuspendMode};
use paths::DomainRows;
use reader::board::read_board;
use reader::read_record;
use script::limits::{ANSWER, TOPOLOGY};
use script::record::{BoardRecord, Read};
use script::run::{RunAnswer, Start};
use soundness::sound;

// Starts fresh on the board of the first record; 108, or 101.
pub fn start(input: &[u8]) -> Start
    ensures { result ≡ start_of input.now }
{
    let Some(
        BoardRecord {
            platform,
            primary,
            next,
        },
    ) = read_board(input)
    else {
        return Start {
            code: Err(Refusal::Malformed),
            next: 0,
            state: no_state(),
        };
    };
    let made = fresh(platform, primary, &input[TOPOLOGY..next]);
    Start {
        code: made.code,
        next,
        state: made.state,
    }
}

// An array that is handed over has its type's length; of a field nothing says so. Nothing is done.
fn have_lengths(
    cpus: [CpuPowerNode; CPUS],
    states: [u8; DOMAINS],
    requests: [u8; REQUESTS],
    suspends: [u8; REQUESTS],
    copies: [u8; DOMAINS],
)
    ensures { (length cpus ≡ cpu_limit) × (length states ≡ domain_limit) × (length requests ≡ request_slots)
        × (length suspends ≡ request_slots) × (length copies ≡ domain_limit) }
{}

// Is the state sound? That its tables have their lengths is told beside it: from both together it follows that every later state is as sound.
fn sound_at_start(state: State) -> bool
    ensures { (result ≡ soundb state) × Lengths state }
{
    let domains = state.domains;
    have_lengths(
        state.cpus,
        domains.states,
        domains.requests,
        domains.suspends,
        domains.copies,
    );
    sound(state)
}

// What a run of rows gives, beside them. No Result, as `RunAnswer` is none, and not that: the definition `run_of` gives it a State.
#[derive(Drop)]
struct Ran {
    events: u32,
    closing: Result<(), Refusal>,
    written: usize,
    mode: SuspendMode,
}

// Runs events on a state that lies in rows, where the test of the state came out as is said: each call leaves it as sound as it was.
fn run_rows(
    input: &[u8],
    out: &mut [u8],
    budget: u32,
    known: bool,
    board: Board,
    tree: Tree,
    start: SuspendMode,
    rows: &mut DomainRows,
    cpus: &mut CpuTable,
) -> Ran
    requires { Carried known (state_in board tree (lent_cpus cpus.old) (lent_domains rows.old) start) }
    ensures same_rows { SameRows rows.old rows.new }
    ensures same_cpus { SameCpus cpus.old cpus.new }
    ensures value { (run_answer result.events result.closing result.written
        (state_in board tree (lent_cpus cpus.new) (lent_domains rows.new) result.mode)
        ≡ (run_of budget (length out.old) input.now 0
        (state_in board tree (lent_cpus cpus.old) (lent_domains rows.old) start)).answer)
        × (out.new ≡ out_after out.old (run_of budget (length out.old) input.now 0
        (state_in board tree (lent_cpus cpus.old) (lent_domains rows.old) start))) }
{
    let mut at = 0usize;
    let mut events = 0u32;
    let mut written = 0usize;
    let mut mode = start;
    while at < input.len() {
        if budget <= events {
            return Ran {
                events,
                closing: Err(Refusal::BudgetSpent),
                written,
                mode,
            };
        }
        let Read::Event(call, size) = read_record(&input[at..], board.platform.max) else {
            return Ran {
                events,
                closing: Err(Refusal::Malformed),
                written,
                mode,
            };
        };
        let next = at + size;
        if out.len() - written < ANSWER {
            return Ran {
                events,
                closing: Err(Refusal::NoRoom),
                written,
                mode,
            };
        }
        let number = events + 1;
        let end = written + ANSWER;
        let done = event(known, board, tree, mode, rows, cpus, call);
        mode = done.mode;
        // there is room, as is tested above
        let _ = write_answer(&mut out[written..], number, done.code, done.shown);
        events = number;
        written = end;
        at = next;
    }
    Ran {
        events,
        closing: Ok(()),
        written,
        mode,
    }
}

// Runs events from a state; the answer records go to the front of the output, and what is not written is as it was. At each event: the
// clean end, 112, 108, 110, then the call. The state is tested once, and lies in rows while the events are taken.
pub fn run(input: &[u8], out: &mut [u8], start: State, budget: u32) -> RunAnswer
    ensures { (result ≡ (run_of budget (length out.old) input.now 0 start).answer)
        × (out.new ≡ out_after out.old (run_of budget (length out.old) input.now 0 start)) }
{
    let known = sound_at_start(start);
    // the rows are lent one by one
    let mut domains = start.domains;
    let mut table = rows_of(start.cpus);
    let mut rows = DomainRows {
        states: &mut domains.states,
        requests: &mut domains.requests,
        suspends: &mut domains.suspends,
        copies: &mut domains.copies,
    };
    let mut lent = CpuTable {
        firsts: &table.firsts,
        affinities: &mut table.affinities,
        locals: &mut table.locals,
        helds: &mut table.helds,
        addresses: &mut table.addresses,
        contexts: &mut table.contexts,
    };
    let ran = run_rows(
        input,
        out,
        budget,
        known,
        start.board,
        start.tree,
        start.mode,
        &mut rows,
        &mut lent,
    );
    let state = State {
        board: start.board,
        tree: start.tree,
        cpus: table.view().table_of(),
        domains,
        mode: ran.mode,
    };
    RunAnswer {
        events: ran.events,
        closing: ran.closing,
        written: ran.written,
        state,
    }
}
