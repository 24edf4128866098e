#![tactic(auto)]

ghost use Rattle.std.specs.Prelude.{◌%◌, ◌≤◌, ◌++◌, ◌≡◌, length, drop};
ghost use Rattle.model.specs.Numbers.{number_of};
ghost use Rattle.script.specs.AnswerRecord.{answer_bytes, onto, room_code_of};
ghost use Rattle.script.specs.Bytes.{signed_byte_of};

use model::code::{Refusal, number};
use model::states::CompositeState;
use script::limits::ANSWER;

// The byte of a code, with its sign: -2 is FEh.
pub fn code_byte(code: Result<(), Refusal>) -> u8
    ensures { result ≡ signed_byte_of (number_of code) }
{
    (number(code) & 0xff) as u8
}

// An answer record.
fn answer_record(number: u32, code: Result<(), Refusal>, states: CompositeState) -> [u8; ANSWER]
    ensures { result ≡ answer_bytes number code states }
{
    let [n0, n1, n2, n3] = number.to_le_bytes();
    [
        13,
        0,
        0,
        1,
        n0,
        n1,
        n2,
        n3,
        code_byte(code),
        states.level0,
        states.level1,
        states.level2,
        states.level3,
    ]
}

// Writes an answer record at the front of the part; 110 where there is no room, and then nothing is written.
pub fn write_answer(
    out: &mut [u8],
    number: u32,
    code: Result<(), Refusal>,
    states: CompositeState,
) -> Result<(), Refusal>
    ensures value { result ≡ room_code_of out.old }
    ensures out_after { out.new ≡ onto out.old (answer_bytes number code states) }
{
    if out.len() < ANSWER {
        return Err(Refusal::NoRoom);
    }
    out[..ANSWER].copy_from_slice(&answer_record(number, code, states));
    Ok(())
}
