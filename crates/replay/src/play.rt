// Plays a case: runs or prints its script, and compares.
use crate::bytes::part;
use crate::case::{Case, Kind};
use crate::{expected, run};
use printer::print_script;

// What stands in the output where nothing is written.
const MARK: u8 = 0xA5;

// Runs or prints the script. Are the numbers as the case says?
fn numbers_are(case: Case, input: &[u8], out: &mut [u8], length: usize) -> bool {
    out.fill(MARK);
    match case.kind {
        Kind::Run => run::is(case, input, out, length),
        Kind::Print => print_script(input, out) == length,
    }
}

// Is all as the case says: the numbers, and every byte of the output, what is not written and what is behind the room too?
pub(super) fn is(case: Case, input: &mut [u8], out: &mut [u8], wanted: &mut [u8]) -> bool {
    let n = expected::script(case, input);
    wanted.fill(MARK);
    let length = expected::expected(case, wanted);
    let numbers = numbers_are(case, part(input, 0, n), out, length);
    numbers && &*out == &*wanted
}
