use crate::code::Refusal;
use crate::limits::{CPUS, DOMAINS, ENTRIES};
use crate::sorts::CpuNumber;
use crate::states::Platform;

// The byte that stands where a domain has no parent: no Option, since C hands over the bytes of the row.
pub const NO_PARENT: u8 = 255;

// What a board is given by.
#[derive(Clone, Copy)]
pub struct Board {
    pub platform: Platform,
    // the CPU that is up at the start
    pub primary: CpuNumber,
    // entry 0 counts the top domains, entry k+1 the children of domain k; 0 past the last, for there is no heap
    pub topology: [u8; ENTRIES],
}

// The tree that a topology describes. In each row stands at a domain's number what there is of that domain.
// Rows and no records in a Vec or a Box: there is no heap, and C keeps these rows (`psci_start`).
#[derive(Clone, Copy)]
pub struct Tree {
    // the domain above, or NO_PARENT
    pub parents: [u8; DOMAINS],
    // the span of the CPUs under it
    pub cpu_starts: [u8; DOMAINS],
    pub cpu_ends: [u8; DOMAINS],
    // the span of the domains directly below it
    pub child_starts: [u8; DOMAINS],
    pub child_ends: [u8; DOMAINS],
    pub domain_count: u8,
    pub cpu_count: u8,
}

// The tree of a board, and at each CPU's number the domain directly above it. Beside a refusal all is 0. No
// Result: the definition `soundb` and its law `is_sound` read each part beside the code.
#[derive(Clone, Copy)]
pub struct TreeAnswer {
    pub code: Result<(), Refusal>,
    pub tree: Tree,
    pub cpu_parents: [u8; CPUS],
}
