use crate::board::{Board, Tree};
use crate::code::Refusal;
use crate::cpu::CpuPowerNode;
use crate::limits::{CPUS, DOMAINS, REQUESTS};

// Who coordinates the power states: the Rust's `SuspendMode`.
#[derive(Clone, Copy, PartialEq, Eq, Debug)]
pub enum SuspendMode {
    PlatformCoordinated,
    OsInitiated,
}

// What changes of the power domains. Rows and no records: C keeps these rows (`psci_start`).
#[derive(Clone, Copy)]
pub struct Domains {
    // at each domain's number its state
    pub states: [u8; DOMAINS],
    // by level and CPU, level 1 first: the state that the CPU asks of its domain of that level
    pub requests: [u8; REQUESTS],
    // in the same order: its OS-initiated suspend state, or NO_SUSPEND_STATE
    pub suspends: [u8; REQUESTS],
    // at each domain's number the copy of its state that its parent holds
    pub copies: [u8; DOMAINS],
}

// The whole state: what a call takes and gives back. Unused slots are 0: there is no heap.
#[derive(Clone, Copy)]
pub struct State {
    pub board: Board,
    pub tree: Tree,
    pub cpus: [CpuPowerNode; CPUS],
    pub domains: Domains,
    pub mode: SuspendMode,
}

// What a start answers: beside a refusal stands a state of zeros, which is not sound. No Result: the definition `fresh_of`,
// under the theorem `reached`, has the state beside the code, of a refusal too.
#[derive(Clone, Copy)]
pub struct FreshAnswer {
    pub code: Result<(), Refusal>,
    pub state: State,
}
