// What `scriptrun` prints for an input, whole.
#![tactic(auto)]

ghost use Rattle.std.specs.Prelude.{◌≤◌, ◌≡◌, drop, length};
ghost use Rattle.std.proofs.lemmas.List.Edits.{sets};
ghost use Rattle.script.specs.Printed.{answer_room, event_limit, printed_of, run_text, text_most};
ghost use Rattle.script.specs.Run.{run_of};
ghost use Rattle.text.specs.Put.{Put};

use model::code::Refusal;
use model::state::State;
use script::limits::{ANSWERS, EVENTS, INPUT};
use script_run::{run, start};
use text::{refused_line, run_text};

// Room for the answer records of all events. Lending it needs its length.
fn answer_room() -> [u8; ANSWERS]
    ensures { answer_room ≡ length result }
{
    [0; ANSWERS]
}

// Puts the text of the run of some events on a board.
fn print_run<'a>(events: &'a [u8], text: &'a mut [u8], state: State) -> usize
    ensures { Put text.old 0
        (run_text state (run_of event_limit answer_room events.now 0 state)) text.new result }
{
    let mut answers = answer_room();
    let ran = run(events, &mut answers, state, EVENTS);
    run_text(
        text,
        state,
        &answers[..ran.written],
        ran.events,
        ran.closing,
    )
}

// Puts what is printed for an input at the front of the text, and gives its length back. No String: there is no heap.
pub fn print_script<'a>(input: &'a [u8], text: &'a mut [u8]) -> usize
    ensures text_after { text.new ≡ sets text.old 0 (printed_of input.now) }
    ensures value { result ≡ length (printed_of input.now) }
    ensures upper_bound { result ≤ text_most }
{
    if INPUT < input.len() {
        return refused_line(text, Err(Refusal::NoRoom));
    }
    let begun = start(input);
    if begun.code.is_err() {
        return refused_line(text, begun.code);
    }
    print_run(&input[begun.next..], text, begun.state)
}
