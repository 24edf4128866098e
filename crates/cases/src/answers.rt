// A platform's answer byte, and the number that is given back for it.
use lines::say;
use model::code::{number, of_answer};

pub(super) fn run() {
    for (byte, wanted) in [
        (0, 0),
        (255, -1),
        (254, -2),
        (247, -9),
        (246, 106),
        (128, 106),
        (127, 106),
        (1, 106),
    ] {
        say(
            format_args!("answer {byte:02X}h is {wanted}"),
            number(of_answer(byte)) == wanted,
        );
    }
}
