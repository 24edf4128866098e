// A case, at the front of what is left of the list.
use crate::bytes::part;
use numbers::{read_u16, read_u32};
use rows::cells::at;

// The bytes before its name.
const HEAD: usize = 27;

#[derive(Clone, Copy, PartialEq, Eq)]
pub(super) enum Kind {
    Run,
    Print,
}

// There is no such kind.
#[derive(Clone, Copy)]
pub(super) struct NoKind;

impl TryFrom<u8> for Kind {
    type Error = NoKind;

    fn try_from(byte: u8) -> Result<Kind, NoKind> {
        match byte {
            1 => Ok(Kind::Run),
            2 => Ok(Kind::Print),
            _ => Err(NoKind),
        }
    }
}

// Its fields, in the order in which main.rt lists them.
#[derive(Clone, Copy)]
pub(super) struct Case<'a> {
    pub kind: Kind,
    pub name: &'a [u8],
    pub script: &'a [u8],
    pub expected: &'a [u8],
    pub record: usize,
    pub record_again: u16,
    pub last_line: usize,
    pub answer: usize,
    pub answer_number: u32,
    pub answer_again: u16,
    pub start: u8,
    pub budget: u32,
    pub room: usize,
    pub events: u32,
    pub closing: u8,
    // the length of the whole case
    pub size: usize,
}

impl<'a> Case<'a> {
    // The case, if one is there, whole and of a kind that there is.
    pub(super) fn read(rest: &'a [u8]) -> Option<Case<'a>> {
        let kind = Kind::try_from(at(rest, 0)).ok()?;
        let script = HEAD + at(rest, 1) as usize;
        let expected = script + read_u16(rest, 2) as usize;
        let size = expected + read_u16(rest, 4) as usize;
        if rest.len() < size {
            return None;
        }
        Some(Case {
            kind,
            name: part(rest, HEAD, script),
            script: part(rest, script, expected),
            expected: part(rest, expected, size),
            record: at(rest, 6) as usize,
            record_again: read_u16(rest, 7),
            last_line: at(rest, 9) as usize,
            answer: at(rest, 10) as usize,
            answer_number: read_u16(rest, 11) as u32,
            answer_again: read_u16(rest, 13),
            start: at(rest, 15),
            budget: read_u32(rest, 16),
            room: read_u16(rest, 20) as usize,
            events: read_u32(rest, 22),
            closing: at(rest, 26),
            size,
        })
    }
}
