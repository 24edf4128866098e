// Runs the compiled test of a state record, and the queries, on records of the bench board in which one thing is changed. Each line
// is a statement and whether it holds; the file `stdout` has them all at yes.
#![tactic(auto)]

mod base;
mod change;
mod cpus;
mod domains;
mod queries;
mod slots;
mod trees;

use crate::base::Base;
use crate::change::{Change, with};
use lines::say;
use soundness::sound;

fn main() {
    base::run();
    trees::run();
    cpus::run();
    domains::run();
    slots::run();
    queries::run();
}

// Says that a record with these changes is sound.
fn sound_is(statement: &str, base: Base, changes: &[Change]) {
    say(
        format_args!("sound: {statement}"),
        sound(with(base.state(), changes)),
    );
}

// Says that a record with these changes is not sound.
fn unsound(statement: &str, base: Base, changes: &[Change]) {
    say(
        format_args!("not sound: {statement}"),
        !sound(with(base.state(), changes)),
    );
}
