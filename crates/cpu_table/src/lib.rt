// The records of CPUs in rows of numbers that are lent: a call reads and stores one record, and copies no table.
#![tactic(auto)]

use model::limits::CPUS;

pub mod record;
pub mod tables;
pub mod walk;

// The rows, at each CPU's number. Bytes and no enums, rows and no records: C keeps them so (`psci_start`).
#[derive(Drop)]
pub struct CpuRows {
    // its domain of level 1
    pub firsts: [u8; CPUS],
    // 0 On, 1 Off, 2 OnPending
    pub affinities: [u8; CPUS],
    // its state
    pub locals: [u8; CPUS],
    // 0 where no entry is held
    pub helds: [u8; CPUS],
    // the entry that is held
    pub addresses: [u64; CPUS],
    pub contexts: [u64; CPUS],
}

// The same rows, lent to be read.
#[derive(Clone, Copy)]
pub struct CpuView<'a> {
    pub firsts: &'a [u8; CPUS],
    pub affinities: &'a [u8; CPUS],
    pub locals: &'a [u8; CPUS],
    pub helds: &'a [u8; CPUS],
    pub addresses: &'a [u64; CPUS],
    pub contexts: &'a [u64; CPUS],
}

// The same rows, lent for change: all but the CPUs' domains, which no call changes.
#[derive(Drop)]
pub struct CpuTable<'a> {
    pub firsts: &'a [u8; CPUS],
    pub affinities: &'a mut [u8; CPUS],
    pub locals: &'a mut [u8; CPUS],
    pub helds: &'a mut [u8; CPUS],
    pub addresses: &'a mut [u64; CPUS],
    pub contexts: &'a mut [u64; CPUS],
}
