// Three sorts where the Rust has one `NodeIndex` and bare level numbers: one given for another does not compile.

// A CPU, numbered in the order of the topology.
#[derive(Clone, Copy, PartialEq, Eq, Debug)]
pub struct CpuNumber(pub u8);

// A power domain above the CPUs, numbered breadth first from the top.
#[derive(Clone, Copy, PartialEq, Eq, Debug)]
pub struct DomainNumber(pub u8);

// A level of the tree: 0 is the CPU, MAX the top.
#[derive(Clone, Copy, PartialEq, Eq, Debug)]
pub struct PowerLevel(pub u8);
