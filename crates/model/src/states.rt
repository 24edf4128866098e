use crate::sorts::PowerLevel;

// The platform's part of a board.
#[derive(Clone, Copy, PartialEq, Eq, Debug)]
pub struct Platform {
    // MAX, the top level
    pub max: PowerLevel,
    // how many states there are: 0 is RUN, the last is OFF
    pub states: u8,
    // d, the first power-down state
    pub down: u8,
}

// The kind of a state: the Rust's `PowerStateType`.
#[derive(Clone, Copy, PartialEq, Eq, Debug)]
pub enum Kind {
    Running,
    Retention,
    PowerDown,
}

// A state for each level, from the CPU up: the Rust's `PsciCompositePowerState`. Four fields: of an array in a field no clause
// sees the length.
#[derive(Clone, Copy, PartialEq, Eq, Debug)]
pub struct CompositeState {
    pub level0: u8,
    pub level1: u8,
    pub level2: u8,
    pub level3: u8,
}
