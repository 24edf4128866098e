// Lines of the text, each put at the end of what stands on a page. The answers and MAX are handed on as they are: no struct of the two.
ghost use Rattle.std.specs.Prelude.{◌+◌, ◌*◌, ◌≡◌, ◌≤◌, suc, ◌++◌, ◌∷◌, drop, length};
ghost use Rattle.script.specs.Printed.{answer_line, answer_lines, board_line, decimal_of, end_line, refused_line, shown_text};
ghost use Rattle.script.specs.Printed.{space, states_text};
ghost use Rattle.text.specs.Put.{Put, Within, line_most, states_most};

use crate::pieces::Page;
use model::code::Refusal;
use model::sorts::PowerLevel;
use model::state::State;
use numbers::read_u32;
use rows::cells;
use script::limits::{ANSWER, NO_CPU_STATE};

impl Page<'_> {
    // One state.
    fn state(&mut self, state: u8)
        requires { Within self.old.at 11 }
        ensures same_text { self.new.text.ghost_name ≡ self.old.text.ghost_name }
        ensures put { Put self.old.text.now self.old.at (space ∷ decimal_of state) self.new.text.now self.new.at }
        ensures upper_bound { self.new.at ≤ self.old.at + 11 }
    {
        self.byte(b' ');
        self.decimal(state as u32);
    }

    // The states of levels 0 to MAX, which stand from a place on.
    fn states(&mut self, answers: &[u8], place: usize, max: PowerLevel)
        requires { Within self.old.at states_most × Within place 256 }
        ensures same_text { self.new.text.ghost_name ≡ self.old.text.ghost_name }
        ensures put { Put self.old.text.now self.old.at (states_text (suc max.0) answers.now place) self.new.text.now self.new.at }
        ensures upper_bound { self.new.at ≤ self.old.at + states_most }
    {
        let levels = max.0 as usize + 1;
        // a number: past the end of the answers a state is 0
        for level in 0..levels {
            self.state(cells::at(answers, place + level));
        }
    }

    // The states of the answer record that stands from a place on, or a dash where there is no such CPU.
    fn shown(&mut self, answers: &[u8], start: usize, max: PowerLevel)
        requires { Within self.old.at states_most × Within start 265 }
        ensures same_text { self.new.text.ghost_name ≡ self.old.text.ghost_name }
        ensures put { Put self.old.text.now self.old.at (shown_text max.0 (drop start answers.now)) self.new.text.now self.new.at }
        ensures upper_bound { self.new.at ≤ self.old.at + states_most }
    {
        let place = start + 9;
        if cells::at(answers, place) == NO_CPU_STATE {
            self.word(b" -");
            return;
        }
        self.states(answers, place, max);
    }

    // The line of the answer record that stands from a place on.
    fn answer(&mut self, answers: &[u8], start: usize, max: PowerLevel)
        requires { Within self.old.at line_most × Within start 265 }
        ensures same_text { self.new.text.ghost_name ≡ self.old.text.ghost_name }
        ensures put { Put self.old.text.now self.old.at (answer_line max.0 (drop start answers.now)) self.new.text.now self.new.at }
        ensures upper_bound { self.new.at ≤ self.old.at + line_most }
    {
        self.decimal(read_u32(answers, start + 4));
        self.byte(b' ');
        self.signed(cells::at(answers, start + 8));
        self.shown(answers, start, max);
        self.byte(b'\n');
    }

    // A line for each of so many answer records.
    pub(super) fn answers(&mut self, answers: &[u8], events: u32, max: PowerLevel)
        requires { Within self.old.at (line_most * events) }
        ensures same_text { self.new.text.ghost_name ≡ self.old.text.ghost_name }
        ensures put { Put self.old.text.now self.old.at (answer_lines max.0 events answers.now) self.new.text.now self.new.at }
        ensures upper_bound { self.new.at ≤ self.old.at + line_most * events }
    {
        // a number: there may be more events than answers
        for i in 0..events {
            self.answer(answers, ANSWER * i as usize, max);
        }
    }

    // A word and a number after it.
    fn named(&mut self, word: &[u8], n: u32)
        requires { Within self.old.at 19 × (length word.now ≤ 9) }
        ensures same_text { self.new.text.ghost_name ≡ self.old.text.ghost_name }
        ensures put { Put self.old.text.now self.old.at (word.now ++ decimal_of n) self.new.text.now self.new.at }
        ensures upper_bound { self.new.at ≤ self.old.at + 19 }
    {
        self.word(word);
        self.decimal(n);
    }

    // The first line.
    pub(super) fn board(&mut self, s: State)
        requires { Within self.old.at 58 }
        ensures same_text { self.new.text.ghost_name ≡ self.old.text.ghost_name }
        ensures put { Put self.old.text.now self.old.at (board_line s) self.new.text.now self.new.at }
        ensures upper_bound { self.new.at ≤ self.old.at + 58 }
    {
        self.named(b"cpus ", s.tree.cpu_count as u32);
        self.named(b" domains ", s.tree.domain_count as u32);
        self.named(b" levels ", s.board.platform.max.0 as u32);
        self.byte(b'\n');
    }

    // The last line.
    pub(super) fn end(&mut self, events: u32, closing: Result<(), Refusal>)
        requires { Within self.old.at 32 }
        ensures same_text { self.new.text.ghost_name ≡ self.old.text.ghost_name }
        ensures put { Put self.old.text.now self.old.at (end_line events closing) self.new.text.now self.new.at }
        ensures upper_bound { self.new.at ≤ self.old.at + 32 }
    {
        self.named(b"end ", events);
        self.byte(b' ');
        self.code(closing);
        self.byte(b'\n');
    }

    // The only line of a refusal.
    pub(super) fn refused(&mut self, code: Result<(), Refusal>)
        requires { Within self.old.at 32 }
        ensures same_text { self.new.text.ghost_name ≡ self.old.text.ghost_name }
        ensures put { Put self.old.text.now self.old.at (refused_line code) self.new.text.now self.new.at }
        ensures upper_bound { self.new.at ≤ self.old.at + 32 }
    {
        self.word(b"refused ");
        self.code(code);
        self.byte(b'\n');
    }
}
