// Pieces of a line, each put at the end of what stands on a page.
ghost use Rattle.std.specs.Prelude.{◌+◌, ◌≤◌, suc, [], ◌∷◌, ◌≡◌, length};
ghost use Rattle.model.specs.Numbers.{number_of, signed_of};
ghost use Rattle.script.specs.Printed.{decimal_of, digits_of, last_digit, signed_text_of};
ghost use Rattle.text.specs.Put.{Put, Within};

use answers::code_byte;
use model::code::Refusal;
use rows::cells;

// A text that is lent, and how far it is put. No invariant bounds that: each method has another most that it puts.
#[derive(Drop)]
pub(super) struct Page<'a> {
    pub text: &'a mut [u8],
    pub at: usize,
}

// The last decimal digit of a number.
fn last_digit(n: u32) -> u8
    ensures { result ≡ last_digit n }
{
    48 + (n % 10) as u8
}

impl Page<'_> {
    // One byte.
    pub(super) fn byte(&mut self, byte: u8)
        requires { Within self.old.at 1 }
        ensures same_text { self.new.text.ghost_name ≡ self.old.text.ghost_name }
        ensures put { Put self.old.text.now self.old.at (byte ∷ []) self.new.text.now self.new.at }
        ensures upper_bound { self.new.at ≤ self.old.at + 1 }
    {
        cells::put(self.text, self.at, byte);
        self.at += 1;
    }

    // A word of nine letters at the most.
    pub(super) fn word(&mut self, word: &[u8])
        requires { Within self.old.at 9 × (length word.now ≤ 9) }
        ensures same_text { self.new.text.ghost_name ≡ self.old.text.ghost_name }
        ensures put { Put self.old.text.now self.old.at word.now self.new.text.now self.new.at }
        ensures upper_bound { self.new.at ≤ self.old.at + 9 }
    {
        for letter in word {
            self.byte(*letter);
        }
    }

    // The decimal digits of a number, with so many places before the last.
    // By hand: no text of a board is made by io, and run_text promises the digits of `digits_of`, which ends at ten places.
    fn digits(&mut self, places: u8, n: u32)
        requires { Within self.old.at (suc places) }
        ensures same_text { self.new.text.ghost_name ≡ self.old.text.ghost_name }
        ensures put { Put self.old.text.now self.old.at (digits_of places n) self.new.text.now self.new.at }
        ensures upper_bound { self.new.at ≤ self.old.at + suc places }
    {
        if places == 0 {
            self.byte(last_digit(n));
            return;
        }
        if n < 10 {
            self.byte(last_digit(n));
            return;
        }
        self.digits(places - 1, n / 10);
        self.byte(last_digit(n));
    }

    // A number.
    pub(super) fn decimal(&mut self, n: u32)
        requires { Within self.old.at 10 }
        ensures same_text { self.new.text.ghost_name ≡ self.old.text.ghost_name }
        ensures put { Put self.old.text.now self.old.at (decimal_of n) self.new.text.now self.new.at }
        ensures upper_bound { self.new.at ≤ self.old.at + 10 }
    {
        self.digits(9, n);
    }

    // The number that a byte is when it is read with its sign.
    pub(super) fn signed(&mut self, byte: u8)
        requires { Within self.old.at 11 }
        ensures same_text { self.new.text.ghost_name ≡ self.old.text.ghost_name }
        ensures put { Put self.old.text.now self.old.at (signed_text_of (signed_of byte)) self.new.text.now self.new.at }
        ensures upper_bound { self.new.at ≤ self.old.at + 11 }
    {
        if byte < 128 {
            self.decimal(byte as u32);
            return;
        }
        self.byte(b'-');
        self.decimal(256 - byte as u32);
    }

    // The number of a code.
    pub(super) fn code(&mut self, code: Result<(), Refusal>)
        requires { Within self.old.at 11 }
        ensures same_text { self.new.text.ghost_name ≡ self.old.text.ghost_name }
        ensures put { Put self.old.text.now self.old.at (signed_text_of (number_of code)) self.new.text.now self.new.at }
        ensures upper_bound { self.new.at ≤ self.old.at + 11 }
    {
        self.signed(code_byte(code));
    }
}
