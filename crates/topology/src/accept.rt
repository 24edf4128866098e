ghost use Rattle.std.specs.Prelude.{◌≡◌, IfSome, is_some};
ghost use Rattle.model.specs.Topology.{cpus_of, domains_of, topologyb};

use crate::sums::Entries;
use model::limits::{CPUS, DOMAINS};
use std::marker::Model;

// A topology that is acceptable. (One that is so with some primary CPU is so with CPU 0.)
#[derive(Drop)]
pub(super) struct Topology<'a> {
    pub(super) entries: Entries<'a>,
    pub(super) max: u8,
}

impl<'a> Model for Topology<'a> {
    ghost use Rattle.topology.specs.Shape.{Shape};
    ghost use Rattle.topology_laws.proofs.Accepted.{Accepted};

    ghost Value = { Shape };

    ghost view = { λ a. record { entries = a.entries; max = a.max } };

    ghost invariant = { λ a. Accepted a.entries a.max 0 };
}

impl<'a> Topology<'a> {
    // The topology, if it is acceptable with this primary CPU. One that is too long is refused before anything is summed. That the
    // levels are filled follows.
    pub(super) fn new(list: &'a [u8], max: u8, primary: u8) -> Option<Self>
        ensures tested { is_some result ≡ topologyb list.now max primary }
        ensures kept { IfSome result (λ t. (t.entries ≡ list.now) × (t.max ≡ max)) }
    {
        let entries = Entries::new(list)?;
        let domains = entries.domains(max);
        if DOMAINS < domains {
            return None;
        }
        let cpus = entries.cpus(max);
        let exists = (primary as usize) < cpus;
        if entries.none_is_zero() & (entries.len() == 1 + domains) & (cpus <= CPUS) & exists {
            return Some(Topology { entries, max });
        }
        None
    }

    // The count of domains.
    pub(super) fn domain_count(&self) -> u8
        ensures { result ≡ domains_of self.now.entries self.now.max }
    {
        self.entries.domains(self.max) as u8
    }

    // The count of CPUs.
    pub(super) fn cpu_count(&self) -> u8
        ensures { result ≡ cpus_of self.now.entries self.now.max }
    {
        self.entries.cpus(self.max) as u8
    }
}
