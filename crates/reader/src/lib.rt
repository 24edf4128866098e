// Reads the records of a script: the board, and then one event after another.
#![tactic(auto)]

ghost use Rattle.std.specs.Prelude.{◌≡◌};
ghost use Rattle.script.specs.Record.{read_of, record_of};

use crate::events::{
    boot_in, finish_in, off_in, on_in, set_mode_in, suspend_in, system_suspend_in,
};
use crate::fields::{kind_in, size_in};
use model::sorts::PowerLevel;
use script::record::Read;

pub mod board;
mod events;
mod fields;

// A record by its kind and the length that this kind has; anything else is 108, a second board too. The numbers of the
// kinds stand here alone.
#[tactic(auto, unfolding(script::specs::Record::record_of))]
fn record_in(rest: &[u8], max: PowerLevel) -> Read
    ensures { result ≡ record_of max.0 rest.now }
{
    match (kind_in(rest), size_in(rest)) {
        (1, 24) => on_in(rest),
        (2, 6) => off_in(rest),
        (3, 26) => suspend_in(rest, max),
        (4, 5) => finish_in(rest),
        (5, 5) => boot_in(rest),
        (6, 28) => system_suspend_in(rest, max),
        (7, 7) => set_mode_in(rest),
        _ => Read::Malformed,
    }
}

// The next event in what is left of the input: the clean end, 108 for a cut record, and else as the record says.
#[tactic(auto, unfolding(script::specs::Record::read_of))]
pub fn read_record(rest: &[u8], max: PowerLevel) -> Read
    ensures { result ≡ read_of max.0 rest.now }
{
    if rest.is_empty() {
        return Read::End;
    }
    let size = size_in(rest);
    if rest.len() < size {
        return Read::Malformed;
    }
    record_in(rest, max)
}
