// A domain whose state or copy is not as it must be.
use crate::base::Base;
use crate::change::Change;
use crate::unsound;

fn run_states() {
    unsound(
        "domain 2 is in state 4, which is none",
        Base::Fresh,
        &[Change::State(2, 4)],
    );
    unsound(
        "domain 2 is at 2, but its minimum is OFF",
        Base::Fresh,
        &[Change::State(2, 2)],
    );
    unsound(
        "domain 1 is at 1, but its minimum is RUN",
        Base::Fresh,
        &[Change::State(1, 1)],
    );
    unsound(
        "domain 1 is at OFF, but its minimum is 2",
        Base::Down,
        &[Change::State(1, 3)],
    );
}

fn run_copies() {
    unsound(
        "the copy of domain 1 is 4, which is no state",
        Base::Fresh,
        &[Change::Copy(1, 4)],
    );
    unsound(
        "the copy of domain 2 is FFh, which is no state",
        Base::Fresh,
        &[Change::Copy(2, 255)],
    );
    unsound(
        "top domain 0 has a copy",
        Base::Fresh,
        &[Change::Copy(0, 1)],
    );
}

pub(super) fn run() {
    run_states();
    run_copies();
}
