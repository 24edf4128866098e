use model::answer::CallAnswer;
use model::code::number;
use model::states::CompositeState;

// Writes a statement and whether it holds: the call gave this number, and the platform was handed these states.
pub(super) fn say(statement: &str, a: CallAnswer, wanted: i32, handed: CompositeState) {
    lines::say(
        statement,
        number(a.code) == wanted && a.out.states == handed,
    );
}
