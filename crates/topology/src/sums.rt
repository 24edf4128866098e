ghost use Rattle.std.specs.Prelude.{◌≡◌, ◌≤◌, IfSome, is_some, leb, length};
ghost use Rattle.model.specs.Limits.{entry_limit};
ghost use Rattle.model.specs.Topology.{cpus_of, domains_of, entriesb, entry_of, level_of, parent_of, start_of, total_of};
ghost use Rattle.model.specs.Tree.{parent_byte_of};

use model::board::NO_PARENT;
use model::limits::ENTRIES;
use std::marker::Model;

// The entries of a topology that is not too long, so that they can be summed. A clause sees the list.
#[derive(Drop)]
pub(super) struct Entries<'a> {
    list: &'a [u8],
}

impl<'a> Model for Entries<'a> {
    ghost use Rattle.std.specs.Prelude.{List, ℕ, ◌≤◌, length};
    ghost use Rattle.model.specs.Limits.{entry_limit};

    ghost Value = { List ℕ };

    ghost view = { λ a. a.list.now };

    ghost invariant = { λ a. length a.list.now ≤ entry_limit };
}

impl<'a> Entries<'a> {
    // The entries, if they are not too many.
    pub(super) fn new(list: &'a [u8]) -> Option<Self>
        ensures tested { is_some result ≡ leb (length list.now) entry_limit }
        ensures kept { IfSome result (λ e. e ≡ list.now) }
    {
        if ENTRIES < list.len() {
            return None;
        }
        Some(Entries { list })
    }

    pub(super) fn len(&self) -> usize
        ensures { result ≡ length self.now }
    {
        self.list.len()
    }

    // Is every entry at least 1?
    pub(super) fn none_is_zero(&self) -> bool
        ensures { result ≡ entriesb self.now }
    {
        self.list.iter().all(|x| 1 <= *x)
    }

    // The sum of the entries.
    fn sum(&self) -> usize
        ensures { result ≡ total_of self.now }
    {
        self.list.iter().map(|x| *x as usize).sum()
    }

    // The node at which the children of domain k start.
    pub(super) fn start(&self, k: usize) -> usize
        ensures { result ≡ start_of self.now k }
    {
        let first = self.list.get(..=k).unwrap_or(self.list);
        Entries { list: first }.sum()
    }

    // The domains of the top levels, so many as are asked for.
    pub(super) fn domains(&self, levels: u8) -> usize
        ensures { result ≡ domains_of self.now levels }
    {
        let mut count: usize = 0;
        for level in 0..levels {
            count = self.start(count);
        }
        count
    }

    // The CPUs: the nodes that are no domains.
    pub(super) fn cpus(&self, max: u8) -> usize
        ensures { result ≡ cpus_of self.now max }
    {
        self.sum() - self.domains(max)
    }

    // The entry that counts node n.
    fn entry(&self, n: usize) -> usize
        ensures { (result ≡ entry_of self.now n) × (result ≤ entry_limit) }
    {
        let mut rest = n;
        for (i, x) in self.list.iter().enumerate() {
            let children = *x as usize;
            if rest < children {
                return i;
            }
            rest -= children;
        }
        self.list.len()
    }

    // The domain directly above node n; 0 where there is none.
    pub(super) fn parent(&self, n: usize) -> u8
        ensures { result ≡ parent_of self.now n }
    {
        self.entry(n).saturating_sub(1) as u8
    }

    // The byte of the domain above domain k.
    pub(super) fn parent_byte(&self, k: usize) -> u8
        ensures { result ≡ parent_byte_of self.now k }
    {
        match self.entry(k) {
            0 => NO_PARENT,
            e => (e - 1) as u8,
        }
    }

    // The level of domain k under the top level.
    pub(super) fn level(&self, max: u8, k: usize) -> u8
        ensures { result ≡ level_of self.now max k }
    {
        let mut d = k;
        for above in 0..max {
            let e = self.entry(d);
            if e == 0 {
                return max - above;
            }
            d = e - 1;
        }
        0
    }
}
