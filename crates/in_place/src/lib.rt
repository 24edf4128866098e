// The calls on what they read alone: the record of the CPU that is named, by value, and the rows of the domains, which are lent. The state
// is not handed over. On a state that is known to be sound this is all that a call does; what goes out is given as the states for the platform.
// A CPU's number and its record stay two arguments: the number stands in the call and the record in the rows, so a struct of both, or of
// the tree and the platform too, would be made for each call and taken apart in it.
#![tactic(auto)]

pub mod any;
pub mod down;
pub mod on;
pub mod wake;

use model::code::Refusal;
use model::cpu::CpuPowerNode;
use model::states::CompositeState;

// What a call gives: its code, the record of the CPU that it names, and the states that the platform is handed, RUN where it is handed none.
// No Result: the definition `stepped_of`, which is under the theorem `board_keeps`, has the record beside a refusal.
#[derive(Clone, Copy)]
pub struct Stepped {
    pub code: Result<(), Refusal>,
    pub node: CpuPowerNode,
    pub states: CompositeState,
}
