// Paths through the tree, on lent rows: the domains above a domain, the stored states over a CPU, and a CPU that runs.
#![tactic(auto)]

pub mod ancestors;
pub mod running;

use model::limits::{DOMAINS, REQUESTS};

// The rows of the domains, lent for change: what `model::state::Domains` is by value.
#[derive(Drop)]
pub struct DomainRows<'a> {
    pub states: &'a mut [u8; DOMAINS],
    pub requests: &'a mut [u8; REQUESTS],
    pub suspends: &'a mut [u8; REQUESTS],
    pub copies: &'a mut [u8; DOMAINS],
}
