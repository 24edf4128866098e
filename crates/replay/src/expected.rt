// What is made of a case: the script, and what it must give, answer records or text.
use crate::bytes::{before_last, lay};
use crate::case::{Case, Kind};
use std::num::wrapping_add_u32;

// Puts the script at the front of a row, and gives its length.
pub(super) fn script(case: Case, row: &mut [u8]) -> usize {
    let (_, record) = before_last(case.script, case.record);
    let mut place = lay(row, 0, case.script);
    for _ in 0..case.record_again {
        place = lay(row, place, record);
    }
    place
}

// An answer record like the given one, of the event with this number.
fn lay_record(row: &mut [u8], place: usize, record: &[u8], number: u32) -> usize {
    let mut answer = [0u8; script::limits::ANSWER];
    for (byte, given) in answer.iter_mut().zip(record) {
        *byte = *given;
    }
    answer[4..8].copy_from_slice(&number.to_le_bytes());
    lay(row, place, &answer)
}

// A number, and the rest of its line: digits go into a row of bytes, not to a writer.
fn lay_line(row: &mut [u8], place: usize, rest: &[u8], number: u32) -> usize {
    let mut digits = [0u8; 20];
    let n = io::decimal(number as u64, &mut digits);
    let next = lay(row, place, &digits[..n]);
    lay(row, next, rest)
}

// Puts what is expected at the front of a row, and gives its length: the last answer comes again, as often as the case says, its number
// counting up.
pub(super) fn expected(case: Case, row: &mut [u8]) -> usize {
    let (answers, end) = before_last(case.expected, case.last_line);
    let (_, answer) = before_last(answers, case.answer);
    let mut place = lay(row, 0, answers);
    let mut number = case.answer_number;
    for _ in 0..case.answer_again {
        number = wrapping_add_u32(number, 1);
        place = match case.kind {
            Kind::Run => lay_record(row, place, answer, number),
            Kind::Print => lay_line(row, place, answer, number),
        };
    }
    lay(row, place, end)
}
