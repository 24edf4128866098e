// Is a script's run as its case says?
use crate::case::Case;
use answers::code_byte;
use model::code::Refusal;
use script_run::{run, start};

// The start's code, the events that were taken, and why there were no more.
fn closes(
    case: Case,
    start: Result<(), Refusal>,
    events: u32,
    closing: Result<(), Refusal>,
) -> bool {
    code_byte(start) == case.start && events == case.events && code_byte(closing) == case.closing
}

// The start, and the run of what follows the board, on the room that the case gives it, whose answers have this length. A board that is
// refused closes with that number, and nothing is written.
pub(super) fn is(case: Case, input: &[u8], out: &mut [u8], length: usize) -> bool {
    if out.len() < case.room {
        return false;
    }
    let s = start(input);
    if s.code.is_err() {
        return closes(case, s.code, 0, s.code) && length == 0;
    }
    if input.len() < s.next {
        return false;
    }
    let a = run(
        &input[s.next..],
        &mut out[..case.room],
        s.state,
        case.budget,
    );
    closes(case, s.code, a.events, a.closing) && a.written == length
}
