use crate::limits::{CPUS, DOMAINS};
use crate::sorts::DomainNumber;

// The byte that stands where a CPU has no suspend state: no Option, since C hands over the bytes of the row.
pub const NO_SUSPEND_STATE: u8 = 255;

// The numbers from `start` up to `end`, which is not counted: the Rust's `Range`.
#[derive(Clone, Copy, PartialEq, Eq, Debug)]
pub struct Span {
    pub start: u8,
    pub end: u8,
}

// A power domain: the Rust's `NonCpuPowerNode`. Its tables are as long as the limits, for there is no heap; a span
// is the part that is in use.
#[derive(Clone, Copy)]
pub struct NonCpuPowerNode {
    // the domain above it; the top has none
    pub parent: Option<DomainNumber>,
    pub local_state: u8,
    // the CPUs under it
    pub cpu_range: Span,
    // the domains directly below it
    pub non_cpu_range: Span,
    // at each CPU's number the state that it asks of this domain
    pub requested_states: [u8; CPUS],
    // at each CPU's number its OS-initiated suspend state, or NO_SUSPEND_STATE
    pub suspend_states: [u8; CPUS],
    // at each domain's number the copy of its state
    pub non_cpu_states: [u8; DOMAINS],
}
