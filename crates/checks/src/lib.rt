// The checks of the calls, in their order, on numbers, flags and enums alone: which code a call answers.
#![tactic(auto)]

pub mod caller;
pub mod mode;
pub mod on;
pub mod suspend;
pub mod system_suspend;
pub mod wake;
