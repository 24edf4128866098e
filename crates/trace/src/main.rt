// Answers requests: from standard input one after another, to standard output a reply for each. docs/REFERENCE.md, 'A request
// and its reply', has their bytes.
#![tactic(auto)]

use traced::{REPLY, REQUEST, answer, write_reply};

// The standard streams' numbers.
const STDIN: i32 = 0;

const STDOUT: i32 = 1;

// Answers the next request, and says whether there was one.
fn serve() -> bool {
    let mut request = [0u8; REQUEST];
    let mut reply = [0u8; REPLY];
    if io::read_full(STDIN, &mut request) < REQUEST {
        return false;
    }
    write_reply(&mut reply, answer(&request));
    io::write_all(STDOUT, &reply)
}

// A proved loop has to end, and nothing says that the input does. So the loop has a number of turns, one that no run uses up.
fn main() {
    for _ in 0..u64::MAX {
        if !serve() {
            break;
        }
    }
}
