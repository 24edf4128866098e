// The text that `scriptrun` prints.
#![tactic(auto)]

ghost use Rattle.std.specs.Prelude.{◌++◌};
ghost use Rattle.model.specs.State.{max_at};
ghost use Rattle.script.specs.Printed.{answer_lines, board_line, end_line, refused_line};
ghost use Rattle.text.specs.Put.{Put};

mod lines;
mod pieces;

use crate::pieces::Page;
use model::code::Refusal;
use model::state::State;

// Puts the text of a run on a board at the front: so many events with their answer records, and the closing number. The length of
// the whole text is given back; what has no room is dropped.
pub fn run_text<'a>(
    text: &'a mut [u8],
    s: State,
    answers: &'a [u8],
    events: u32,
    closing: Result<(), Refusal>,
) -> usize
    ensures { Put text.old 0
        (board_line s ++ answer_lines (max_at s) events answers.now ++ end_line events closing) text.new result }
{
    let mut page = Page { text, at: 0 };
    page.board(s);
    page.answers(answers, events, s.board.platform.max);
    page.end(events, closing);
    page.at
}

// Puts the text of a refusal at the front.
pub fn refused_line(text: &mut [u8], code: Result<(), Refusal>) -> usize
    ensures { Put text.old 0 (refused_line code) text.new result }
{
    let mut page = Page { text, at: 0 };
    page.refused(code);
    page.at
}
