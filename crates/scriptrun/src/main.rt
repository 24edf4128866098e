// Runs the script on standard input, and prints what each of its events gives.
#![tactic(auto)]

use printer::print_script;
use script::limits::{INPUT, TEXT};

// One byte more than is taken, so that a longer input is seen.
const READ: usize = INPUT + 1;

fn main() {
    let mut input = [0u8; READ];
    let mut text = [0u8; TEXT];
    let count = io::read_full(0, &mut input);
    let length = print_script(&input[..count], &mut text);
    io::write_all(1, &text[..length]);
}
