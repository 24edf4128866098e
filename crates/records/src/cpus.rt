// A CPU whose state, requests or entry do not go together.
use crate::base::Base;
use crate::change::Change;
use crate::unsound;
use model::cpu::AffinityInfo;

fn run_range() {
    unsound(
        "suspended CPU 0 is in state 4, which is none",
        Base::Down,
        &[Change::CpuState(0, 4)],
    );
    unsound(
        "Off CPU 1 is in state 255, which is none",
        Base::Fresh,
        &[Change::CpuState(1, 255)],
    );
    unsound(
        "Off CPU 1 asks for state 4, which is none",
        Base::Fresh,
        &[Change::Request(1, 1, 4)],
    );
}

fn run_off() {
    unsound(
        "Off CPU 1 asks for 2 at level 1",
        Base::Fresh,
        &[Change::Request(1, 1, 2)],
    );
    unsound(
        "Off CPU 1 asks for RUN at level 2",
        Base::Fresh,
        &[Change::Request(2, 1, 0)],
    );
    unsound(
        "Off CPU 1 is in state 2",
        Base::Fresh,
        &[Change::CpuState(1, 2)],
    );
    unsound(
        "Off CPU 1 is in state RUN",
        Base::Fresh,
        &[Change::CpuState(1, 0)],
    );
}

fn run_pending() {
    unsound(
        "OnPending CPU 1 asks for 2 at level 1",
        Base::Pending,
        &[Change::Request(1, 1, 2)],
    );
    unsound(
        "OnPending CPU 1 asks for RUN at level 2",
        Base::Pending,
        &[Change::Request(2, 1, 0)],
    );
    unsound(
        "OnPending CPU 1 is in state RUN",
        Base::Pending,
        &[Change::CpuState(1, 0)],
    );
}

fn run_running() {
    unsound(
        "running CPU 0, beside running CPU 1, asks for 1 at level 1",
        Base::Beside,
        &[Change::Request(1, 0, 1)],
    );
    unsound(
        "running CPU 0, beside running CPU 1, asks for OFF at level 2",
        Base::Beside,
        &[Change::Request(2, 0, 3)],
    );
    unsound(
        "CPU 0 is Off, but runs",
        Base::Beside,
        &[Change::Affinity(0, AffinityInfo::Off)],
    );
}

// Domain 1 and domain 0 take what CPU 0 asks of them, for the other CPUs ask for OFF.
fn run_suspended() {
    unsound(
        "CPU 0 suspended at 1,2,0, domain 1 at its minimum 2",
        Base::Retained,
        &[Change::Request(1, 0, 2), Change::State(1, 2)],
    );
    unsound(
        "CPU 0 suspended at 1,0,1, domain 0 at its minimum 1",
        Base::Retained,
        &[
            Change::Request(1, 0, 0),
            Change::State(1, 0),
            Change::Request(2, 0, 1),
            Change::State(0, 1),
        ],
    );
    // 4 is past the last state
    unsound(
        "CPU 0 suspended at 2,4,0, domain 1 at its minimum 3",
        Base::Down,
        &[Change::Request(1, 0, 4), Change::State(1, 3)],
    );
}

fn run_entries() {
    unsound(
        "running CPU 0 holds an entry",
        Base::Fresh,
        &[Change::EntryHeld(0, true)],
    );
    unsound(
        "Off CPU 1 holds an entry",
        Base::Fresh,
        &[Change::EntryHeld(1, true)],
    );
    unsound(
        "CPU 0, suspended in retention, holds an entry",
        Base::Retained,
        &[Change::EntryHeld(0, true)],
    );
    unsound(
        "OnPending CPU 1 holds no entry",
        Base::Pending,
        &[Change::EntryHeld(1, false)],
    );
    unsound(
        "CPU 0, suspended in power-down, holds no entry",
        Base::Down,
        &[Change::EntryHeld(0, false)],
    );
}

fn run_suspend_states() {
    unsound(
        "CPU 0 has suspend state 1 at level 1",
        Base::Fresh,
        &[Change::Suspend(1, 0, 1)],
    );
    unsound(
        "CPU 3 has suspend state 0 at level 2",
        Base::Fresh,
        &[Change::Suspend(2, 3, 0)],
    );
}

pub(super) fn run() {
    run_range();
    run_off();
    run_pending();
    run_running();
    run_suspended();
    run_entries();
    run_suspend_states();
}
