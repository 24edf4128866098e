// The topology of a board: is it acceptable, and the tree that it describes (the Rust's `PowerDomainTree::new`).
#![tactic(auto)]

ghost use Rattle.std.specs.Prelude.{◌≡◌};
ghost use Rattle.model.specs.Tree.{no_tree, tree_answer_of, tree_of};

mod accept;
mod assign;
mod fill;
mod sums;

use crate::accept::Topology;
use model::board::{Tree, TreeAnswer};
use model::code::Refusal;
use model::limits::{CPUS, DOMAINS};
use model::sorts::CpuNumber;
use model::states::Platform;
use states::platform::platform_accepted;

impl<'a> Topology<'a> {
    // The tree that it describes.
    fn tree(&self) -> Tree
        ensures { result ≡ tree_of self.now.entries self.now.max }
    {
        // opens the value, for its rows are the tree's since it is acceptable
        let _ = &self.entries;
        let parents = self.parents();
        let (cpu_starts, cpu_ends) = self.cpu_spans(&parents);
        let (child_starts, child_ends) = self.child_spans();
        Tree {
            domain_count: self.domain_count(),
            cpu_count: self.cpu_count(),
            parents,
            cpu_starts,
            cpu_ends,
            child_starts,
            child_ends,
        }
    }
}

// No tree.
pub fn no_tree() -> Tree
    ensures { result ≡ no_tree }
{
    Tree {
        domain_count: 0,
        cpu_count: 0,
        parents: [0; DOMAINS],
        cpu_starts: [0; DOMAINS],
        cpu_ends: [0; DOMAINS],
        child_starts: [0; DOMAINS],
        child_ends: [0; DOMAINS],
    }
}

// The tree of a board, and the domain above each CPU. A board that is not acceptable gets 101, and no tree.
pub fn power_domain_tree(platform: Platform, primary: CpuNumber, topology: &[u8]) -> TreeAnswer
    ensures { result ≡ tree_answer_of platform primary topology.now }
{
    let refused = TreeAnswer {
        code: Err(Refusal::BadBoard),
        tree: no_tree(),
        cpu_parents: [0; CPUS],
    };
    if !platform_accepted(platform) {
        return refused;
    }
    let Some(topology) = Topology::new(topology, platform.max.0, primary.0) else {
        return refused;
    };
    TreeAnswer {
        code: Ok(()),
        tree: topology.tree(),
        cpu_parents: topology.cpu_parents(),
    }
}
