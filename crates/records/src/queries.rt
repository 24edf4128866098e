// What sound records, and records that are not sound, say of their CPUs.
use crate::base::{Base, pending, running};
use crate::change::{Change, with};
use fresh::fresh;
use lines::say;
use model::code::{Refusal, number};
use model::sorts::{CpuNumber, PowerLevel};
use model::state::State;
use model::states::Platform;
use state_query::{are_all_cpus_on, is_last_cpu, is_last_cpu_to_idle_at_power_level};

// The answer as one number: 1 for yes, 0 for no, and a refusal by its own number.
fn answer(a: Result<bool, Refusal>) -> i32 {
    match a {
        Ok(true) => 1,
        Ok(false) => 0,
        Err(refusal) => number(Err(refusal)),
    }
}

fn last(s: State, cpu: u8) -> i32 {
    answer(is_last_cpu(s, CpuNumber(cpu)))
}

fn all_on(s: State) -> i32 {
    answer(are_all_cpus_on(s))
}

fn idle(s: State, cpu: u8, level: u8) -> i32 {
    answer(is_last_cpu_to_idle_at_power_level(s, CpuNumber(cpu), PowerLevel(level)))
}

// Domain 2 is at 2, but its minimum is OFF.
fn unsound() -> State {
    with(Base::Fresh.state(), &[Change::State(2, 2)])
}

// The fresh state of a board of so many CPUs below one domain, at MAX 1.
fn cluster(cpus: u8) -> State {
    let platform = Platform {
        max: PowerLevel(1),
        states: 4,
        down: 2,
    };
    fresh(platform, CpuNumber(0), &[1, cpus]).state
}

fn run_last() {
    say(
        "fresh: CPU 0 is the last CPU",
        last(Base::Fresh.state(), 0) == 1,
    );
    say(
        "CPU 1 OnPending: CPU 0 is not the last CPU, for OnPending is not Off",
        last(Base::Pending.state(), 0) == 0,
    );
    say(
        "CPU 1 running: CPU 0 is not the last CPU",
        last(Base::Beside.state(), 0) == 0,
    );
    say(
        "CPU 0 suspended, and so On: CPU 0 is the last CPU",
        last(Base::Down.state(), 0) == 1,
    );
}

fn run_last_refused() {
    say(
        "fresh: whether CPU 1, which is Off, is the last CPU is 104",
        last(Base::Fresh.state(), 1) == 104,
    );
    say(
        "CPU 1 OnPending: whether CPU 1 is the last CPU is 104",
        last(Base::Pending.state(), 1) == 104,
    );
    say(
        "fresh: whether CPU 4, which there is not, is the last CPU is 103",
        last(Base::Fresh.state(), 4) == 103,
    );
}

fn run_unsound() {
    say(
        "a record that is not sound: whether CPU 0 is the last CPU is 102",
        last(unsound(), 0) == 102,
    );
    say(
        "a record that is not sound: whether CPU 4 is the last CPU is 102, before 103",
        last(unsound(), 4) == 102,
    );
    say(
        "a record that is not sound: whether all CPUs are On is 102",
        all_on(unsound()) == 102,
    );
}

fn run_all_on() {
    say(
        "fresh: not all CPUs are On",
        all_on(Base::Fresh.state()) == 0,
    );
    say(
        "topology 1,1 at MAX 1, fresh: all CPUs are On",
        all_on(cluster(1)) == 1,
    );
    say(
        "topology 1,2 at MAX 1, CPU 1 running: all CPUs are On",
        all_on(running(cluster(2), 1)) == 1,
    );
    say(
        "topology 1,2 at MAX 1, CPU 1 OnPending: not all CPUs are On",
        all_on(pending(cluster(2), 1)) == 0,
    );
}

fn run_idle() {
    say(
        "fresh: CPU 0 is the last to idle at level 0",
        idle(Base::Fresh.state(), 0, 0) == 1,
    );
    say(
        "fresh: CPU 0 is the last to idle at level 1, for CPU 1 is OFF",
        idle(Base::Fresh.state(), 0, 1) == 1,
    );
    say(
        "fresh: CPU 0 is the last to idle at level 2, for all others are OFF",
        idle(Base::Fresh.state(), 0, 2) == 1,
    );
    say(
        "fresh: CPU 1 is not the last to idle at level 1, for CPU 0 runs",
        idle(Base::Fresh.state(), 1, 1) == 0,
    );
}

fn run_idle_running() {
    say(
        "CPU 1 running: CPU 0 is the last to idle at level 0",
        idle(Base::Beside.state(), 0, 0) == 1,
    );
    say(
        "CPU 1 running: CPU 0 is not the last to idle at level 1",
        idle(Base::Beside.state(), 0, 1) == 0,
    );
    say(
        "CPU 2 running: CPU 0 is the last to idle at level 1, its own cluster",
        idle(Base::Across.state(), 0, 1) == 1,
    );
    say(
        "CPU 2 running: CPU 0 is not the last to idle at level 2",
        idle(Base::Across.state(), 0, 2) == 0,
    );
}

fn run_idle_refused() {
    say(
        "fresh: whether CPU 0 is the last to idle at level 3, above MAX, is 109",
        idle(Base::Fresh.state(), 0, 3) == 109,
    );
    say(
        "fresh: whether CPU 4 is the last to idle at level 0 is 103",
        idle(Base::Fresh.state(), 4, 0) == 103,
    );
    say(
        "fresh: whether CPU 4 is the last to idle at level 3 is 103, before 109",
        idle(Base::Fresh.state(), 4, 3) == 103,
    );
}

fn run_idle_changed() {
    say(
        "the copy of domain 2 at RUN: CPU 0 is not the last to idle at level 2",
        idle(with(Base::Fresh.state(), &[Change::Copy(2, 0)]), 0, 2) == 0,
    );
    say(
        "a record that is not sound: CPU 4 at level 3 is 102, before 103 and 109",
        idle(unsound(), 4, 3) == 102,
    );
}

pub(super) fn run() {
    run_last();
    run_last_refused();
    run_unsound();
    run_all_on();
    run_idle();
    run_idle_running();
    run_idle_refused();
    run_idle_changed();
}
