use crate::sorts::DomainNumber;

// Whether a CPU is up: DEN0022's AFFINITY_INFO.
#[derive(Clone, Copy, PartialEq, Eq, Debug)]
pub enum AffinityInfo {
    On,
    Off,
    OnPending,
}

// Where a CPU goes on when it wakes, and what it is told there.
#[derive(Clone, Copy, PartialEq, Eq, Debug)]
pub struct EntryPoint {
    pub address: u64,
    pub context: u64,
}

// A CPU: the Rust's `CpuPowerNode`.
#[derive(Clone, Copy)]
pub struct CpuPowerNode {
    pub parent: DomainNumber,
    pub affinity_info: AffinityInfo,
    pub local_state: u8,
    // where it goes on, if it is to wake
    pub entry_point: Option<EntryPoint>,
}
