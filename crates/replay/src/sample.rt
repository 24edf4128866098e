// What the upstream Rust answered, reply by reply, and ours beside it. sample.txt says where it is from.
//
// Its bytes follow the list: how many replies in four bytes, and then the items. An item has 33 bytes, and behind them the runs:
//
//   place  bytes
//       0      1   1 for a start, 2 for an event
//       1     28   the record
//      29      2   how many runs
//      31      2   the bytes of the runs
//
// A reply is the one before it, of zeros at a start, with the runs laid over it. A run is its place in two bytes, its length in
// one, and its bytes.
use crate::bytes::{STDIN, lay, part, read_front};
use crate::progress::Progress;
use fresh::no_state;
use lines::Stdout;
use model::answer::CallAnswer;
use model::state::State;
use numbers::{read_u16, read_u32};
use rows::cells::at;
use std::fmt::Write;
use std::num::{wrapping_add_u32, wrapping_add_usize};
use traced::{REPLY, event, started, write_reply};

const ITEM: usize = 33;

// What a reply answers.
#[derive(Clone, Copy, PartialEq, Eq)]
enum Asked {
    Start,
    Event,
}

impl From<u8> for Asked {
    fn from(byte: u8) -> Asked {
        match byte {
            1 => Asked::Start,
            _ => Asked::Event,
        }
    }
}

// Lays the run at a place over a reply, and gives the place behind it.
fn lay_run(reply: &mut [u8], runs: &[u8], place: usize) -> usize {
    let first = wrapping_add_usize(place, 3);
    let next = wrapping_add_usize(first, at(runs, wrapping_add_usize(place, 2)) as usize);
    lay(
        reply,
        read_u16(runs, place) as usize,
        part(runs, first, next),
    );
    next
}

fn lay_runs(reply: &mut [u8], runs: &[u8], count: u16) {
    let mut place = 0usize;
    for _ in 0..count {
        place = lay_run(reply, runs, place);
    }
}

// Our answer, from the state of our answer before it.
fn answer(asked: Asked, record: &[u8], state: State) -> CallAnswer {
    match asked {
        Asked::Start => started(record),
        Asked::Event => event(state, record),
    }
}

// Not as the list says it: of replies only those that differ are written.
// Says that a reply is another, and gives back whether it is the same.
fn said(reply: u32, same: bool) -> bool {
    if !same {
        let _ = writeln!(Stdout, "sample: reply {reply} DIFFERS");
    }
    same
}

// The reply that an item tells, laid over the one before it; before a start there is none.
fn told(head: &[u8], runs: &[u8], reply: &mut [u8]) {
    if Asked::from(at(head, 0)) == Asked::Start {
        reply.fill(0);
    }
    lay_runs(reply, runs, read_u16(head, 29));
}

// Plays an item that is read.
fn play(p: Progress<State>, head: &[u8], runs: &[u8], reply: &mut [u8]) -> Progress<State> {
    let mut own = [0u8; REPLY];
    told(head, runs, reply);
    let a = answer(Asked::from(at(head, 0)), part(head, 1, 29), p.at);
    write_reply(&mut own, a);
    p.and(
        said(wrapping_add_u32(p.played, 1), &*reply == own.as_slice()),
        a.state,
    )
}

// Reads and plays the next item. Where it is cut, it goes no further.
fn next(p: Progress<State>, reply: &mut [u8]) -> Progress<State> {
    let mut head = [0u8; ITEM];
    let mut runs = io::buffer();
    if io::read_full(STDIN, &mut head) < ITEM {
        return p;
    }
    let n = read_u16(&head, 31) as usize;
    if !read_front(&mut runs, n) {
        return p;
    }
    play(p, &head, part(&runs, 0, n), reply)
}

// Plays the sample, and says how many replies there are.
pub(super) fn replay() {
    let mut size = [0u8; 4];
    io::read_full(STDIN, &mut size);
    let count = read_u32(&size, 0);
    let mut reply = [0u8; REPLY];
    let mut p = Progress::new(no_state());
    for _ in 0..count {
        p = next(p, &mut reply);
    }
    let _ = if p.played == count {
        writeln!(
            Stdout,
            "sample: {count} replies of the Rust, {} differ",
            p.differ
        )
    } else {
        writeln!(Stdout, "sample: cut behind reply {}", p.played)
    };
}
