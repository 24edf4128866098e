// What C links of the calls for a board: the functions of `board_calls`, each under its own name: a static library exports its
// own crate's names alone.
#![tactic(auto)]

pub mod down;
pub mod on;
pub mod start;
pub mod wake;
