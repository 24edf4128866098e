// The bytes of a reply: of what goes out, of what is stored, and of the answers to queries.
#![tactic(auto)]

pub mod out;
pub mod queries;
pub mod stored;
