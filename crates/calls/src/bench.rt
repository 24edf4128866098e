// The bench board: MAX 2, four states, d 2, primary 0, topology 1,2,2,2. RUN is 0 and OFF is 3.
use fresh::fresh;
use model::answer::CallAnswer;
use model::cpu::EntryPoint;
use model::sorts::{CpuNumber, PowerLevel};
use model::states::{CompositeState, Platform};
use psci::Psci;

// Each program builds its own bench board: the programs share no crate that it would fit, and each prints its own.
pub(super) fn start() -> Psci {
    let platform = Platform {
        max: PowerLevel(2),
        states: 4,
        down: 2,
    };
    let state = fresh(platform, CpuNumber(0), &[1, 2, 2, 2]).state;
    Psci { state }
}

// What the next call is made on.
pub(super) fn next(a: CallAnswer) -> Psci {
    Psci { state: a.state }
}

pub(super) fn entry() -> EntryPoint {
    EntryPoint {
        address: 4096,
        context: 0,
    }
}

// The same as `of` in the program cases: the two programs share no crate that it would fit.
pub(super) fn states(level0: u8, level1: u8, level2: u8) -> CompositeState {
    CompositeState {
        level0,
        level1,
        level2,
        level3: 0,
    }
}
