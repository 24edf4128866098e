// Runs stored scripts and compares with stored answers. Standard input is what tools/replay-cases makes: first the length of a list in
// four bytes and that list, of cases.txt and the lessons, then the sample, of sample.txt. Each case is a line, and the file `stdout` has
// them all at same.
//
// The list, its numbers with the lowest byte first: `PSCI`, how many cases in two bytes, and then the cases. A case has 27 bytes, and
// behind them its name, its script and what it expects, answer records (run) or text (print):
//
//   place  bytes
//       0      1   1 for a run, 2 for a print
//       1      1   length of the name
//       2      2   length of the script
//       4      2   length of what is expected
//       6      1   length of the script's last record
//       7      2   how often it comes again
//       9      1   length of the last line (print), else 0
//      10      1   length of the last answer: of its record (run), or of its line from behind its number on (print)
//      11      2   its number
//      13      2   how often it comes again, its number counting up
//      15      1   run: the byte of the start's code
//      16      4   run: the budget
//      20      2   run: the room for answer records
//      22      4   run: how many events are taken
//      26      1   run: the byte of the closing number
#![tactic(auto)]

mod bytes;
mod case;
mod expected;
mod list;
mod play;
mod progress;
mod run;
mod sample;

use crate::bytes::{part, read_front};
use numbers::read_u32;

// The length of the list.
fn list_size() -> usize {
    let mut size = [0u8; 4];
    read_front(&mut size, 4);
    read_u32(&size, 0) as usize
}

fn main() {
    let mut list = io::large_buffer();
    let n = list_size();
    read_front(&mut list, n);
    list::replay(part(&list, 0, n));
    sample::replay();
}
