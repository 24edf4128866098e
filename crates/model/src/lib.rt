// The types that the port is made of. What is right of them stands in specs/.
#![tactic(auto)]

pub mod answer;
pub mod board;
pub mod call;
pub mod code;
pub mod cpu;
pub mod limits;
pub mod node;
pub mod sorts;
pub mod state;
pub mod states;
