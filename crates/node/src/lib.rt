// A power domain's record: the functions of the Rust's `NonCpuPowerNode` that make and change it.
#![tactic(auto)]

pub mod assign;
pub mod setters;
