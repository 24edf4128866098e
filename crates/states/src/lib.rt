// States, their kinds, and the composite states that a suspend request is made of.
#![tactic(auto)]

pub mod composite;
pub mod kinds;
pub mod platform;
pub mod request;
