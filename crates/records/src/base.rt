// The records that are changed, which are sound: of the bench board (MAX 2, four states, d 2, primary 0, topology 1,2,2,2). RUN is 0,
// retention 1, power-down 2 and 3, and OFF is 3. Domain 1 is over CPUs 0 and 1, domain 2 over CPUs 2 and 3, domain 0 over both.
use crate::change::{Change, with};
use crate::sound_is;
use fresh::fresh;
use model::cpu::AffinityInfo;
use model::sorts::{CpuNumber, PowerLevel};
use model::state::{State, SuspendMode};
use model::states::Platform;

#[derive(Clone, Copy)]
pub(super) enum Base {
    // the fresh state: CPU 0 runs, the others are Off
    Fresh,
    // then CPU 1 is OnPending, and holds its entry
    Pending,
    // CPU 0 is suspended at 2,2,0, which is power-down, and holds its entry; the others are Off
    Down,
    // CPU 0 is suspended at 1,1,0, which is retention, and holds none; the others are Off
    Retained,
    // CPUs 0 and 1 run
    Beside,
    // CPUs 0 and 2 run
    Across,
    // the fresh state in OS-initiated mode
    OsInitiated,
}

// The bench board, which each program starts for itself: they share no crate that it would fit.
fn fresh_state() -> State {
    let platform = Platform {
        max: PowerLevel(2),
        states: 4,
        down: 2,
    };
    fresh(platform, CpuNumber(0), &[1, 2, 2, 2]).state
}

// CPU 0 asks for these states of itself and of domain 1, and domain 1 takes it, for CPU 1 asks for OFF.
fn suspended(cpu: u8, domain: u8) -> State {
    with(
        fresh_state(),
        &[
            Change::CpuState(0, cpu),
            Change::Request(1, 0, domain),
            Change::State(1, domain),
        ],
    )
}

// A CPU that was Off is On and RUN, and asks for RUN.
pub(super) fn running(s: State, cpu: u8) -> State {
    with(
        s,
        &[
            Change::Affinity(cpu, AffinityInfo::On),
            Change::CpuState(cpu, 0),
            Change::Request(1, cpu, 0),
            Change::Request(2, cpu, 0),
        ],
    )
}

// A CPU is OnPending, and holds its entry.
pub(super) fn pending(s: State, cpu: u8) -> State {
    with(
        s,
        &[
            Change::Affinity(cpu, AffinityInfo::OnPending),
            Change::EntryHeld(cpu, true),
        ],
    )
}

impl Base {
    pub(super) fn state(self) -> State {
        let s = fresh_state();
        match self {
            Base::Fresh => s,
            Base::Pending => pending(s, 1),
            Base::Down => with(suspended(2, 2), &[Change::EntryHeld(0, true)]),
            Base::Retained => suspended(1, 1),
            Base::Beside => running(s, 1),
            // domain 2 runs, by its state and its copy
            Base::Across => with(running(s, 2), &[Change::State(2, 0), Change::Copy(2, 0)]),
            Base::OsInitiated => State {
                mode: SuspendMode::OsInitiated,
                ..s
            },
        }
    }
}

pub(super) fn run() {
    for (statement, base) in [
        ("the fresh state", Base::Fresh),
        ("CPU 1 OnPending with its entry held", Base::Pending),
        (
            "CPU 0 suspended at 2,2,0 with its entry held, domain 1 at 2",
            Base::Down,
        ),
        (
            "CPU 0 suspended at 1,1,0 with no entry, domain 1 at 1",
            Base::Retained,
        ),
        ("CPUs 0 and 1 running", Base::Beside),
        ("CPUs 0 and 2 running, domain 2 at RUN", Base::Across),
        ("the fresh state in OS-initiated mode", Base::OsInitiated),
    ] {
        sound_is(statement, base, &[]);
    }
    // What soundness leaves open.
    sound_is(
        "fresh with another CPU as the primary",
        Base::Fresh,
        &[Change::Primary(3)],
    );
    sound_is(
        "fresh with a copy of domain 2 that is not its state",
        Base::Fresh,
        &[Change::Copy(2, 0)],
    );
}
