// The setters of the Rust's `CpuPowerNode`, on a record that is lent for change.
#![tactic(auto)]

pub mod setters;
