// The calls for a board that keeps its state in rows of its own: each changes the rows in place and gives back its number.
// `board_calls_c` exports them for C. A board is rows that `psci_start` filled and that nobody else writes: then its state is sound, and none tests it.
// Those that hand out states have one shape: reads, a call, `hand`, `keep`. A function that took the call as a closure would have to say
// what the closure leaves of each row that it is lent, and save two lines in each.
#![tactic(auto)]

pub mod down;
pub mod kept;
pub mod on;
pub mod start;
pub mod wake;
