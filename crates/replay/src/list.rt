// The list of cases, one after the other.
use crate::bytes::part;
use crate::case::Case;
use crate::play;
use crate::progress::Progress;
use lines::Stdout;
use numbers::read_u16;
use std::fmt::Write;
use std::num::wrapping_add_usize;

// `PSCI`, and how many cases there are.
const HEAD: usize = 6;

// Says whether a case came out, and gives it back.
fn said(case: Case, good: bool) -> bool {
    io::write_all(1, case.name);
    let _ = writeln!(Stdout, ": {}", if good { "same" } else { "DIFFERS" });
    good
}

// Plays the next case. Where there is none, whole and of a kind that there is, it goes no further. The three rows of room come one by one:
// `play::is` alone takes them on.
fn next(
    p: Progress<usize>,
    list: &[u8],
    input: &mut [u8],
    out: &mut [u8],
    wanted: &mut [u8],
) -> Progress<usize> {
    let Some(case) = Case::read(part(list, p.at, list.len())) else {
        return p;
    };
    let good = play::is(case, input, out, wanted);
    p.and(said(case, good), wrapping_add_usize(p.at, case.size))
}

fn malformed(played: u32) {
    let _ = writeln!(Stdout, "the list is cut or malformed behind case {played}");
}

fn end(p: Progress<usize>, count: u32, length: usize) {
    if p.played == count && p.at == length {
        let _ = writeln!(Stdout, "{count} cases, {} differ", p.differ);
    } else {
        malformed(p.played);
    }
}

// Plays all cases of a list, and says how many there are.
pub(super) fn replay(list: &[u8]) {
    let mut input = io::large_buffer();
    let mut out = io::large_buffer();
    let mut wanted = io::large_buffer();
    if !list.starts_with(b"PSCI") {
        malformed(0);
        return;
    }
    let count = read_u16(list, 4) as u32;
    let mut p = Progress::new(HEAD);
    for _ in 0..count {
        p = next(p, list, &mut input, &mut out, &mut wanted);
    }
    end(p, count, list.len());
}
