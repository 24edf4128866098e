// Numbers in bytes, the lowest byte first; past the end a byte is 0.
// Three functions: each is made of the one of half its width, and one for all widths would need a trait and a cast for each type.
#![tactic(auto)]

ghost use Rattle.std.specs.Prelude.{◌≡◌};
ghost use Rattle.script.specs.Bytes.{number_at};

use rows::cells;

// The number that the two bytes at a place are.
#[tactic(auto, using(script_laws::proofs::Bytes::number_past, script_laws::proofs::Bytes::number_two))]
pub fn read_u16(s: &[u8], at: usize) -> u16
    ensures { result ≡ number_at 2 s.now at }
{
    if s.len() <= at {
        return 0;
    }
    let low = cells::at(s, at) as u16;
    let high = cells::at(s, at + 1) as u16;
    low + 256 * high
}

// The number that the four bytes at a place are.
#[tactic(auto, using(script_laws::proofs::Bytes::number_past, script_laws::proofs::Bytes::number_four))]
pub fn read_u32(s: &[u8], at: usize) -> u32
    ensures { result ≡ number_at 4 s.now at }
{
    if s.len() <= at {
        return 0;
    }
    let low = read_u16(s, at) as u32;
    let high = read_u16(s, at + 2) as u32;
    low + 65536 * high
}

// The number that the eight bytes at a place are.
#[tactic(auto, using(script_laws::proofs::Bytes::number_past, script_laws::proofs::Bytes::number_eight))]
pub fn read_u64(s: &[u8], at: usize) -> u64
    ensures { result ≡ number_at 8 s.now at }
{
    if s.len() <= at {
        return 0;
    }
    let low = read_u32(s, at) as u64;
    let high = read_u32(s, at + 4) as u64;
    low + 4294967296 * high
}
