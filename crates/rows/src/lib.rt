// Rows of bytes that are lent: reads and stores that no number can break, tables by value, and the minimum of a part.
#![tactic(auto)]

pub mod cells;
pub mod least;
pub mod others;
pub mod tables;
