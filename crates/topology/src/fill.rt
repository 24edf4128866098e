ghost use Rattle.std.specs.Prelude.{◌≡◌, ℕ};
ghost use Rattle.model.specs.Table.{domain_row_of, table_of};
ghost use Rattle.model.specs.Topology.{cpu_node_of, domains_of, parent_of};
ghost use Rattle.model.specs.Tree.{child_span_of, cpu_parents_of, parent_byte_of};

use crate::accept::Topology;
use model::limits::{CPUS, DOMAINS};
use model::node::Span;
use rows::cells::put;

// A row of bytes: the first places, so many as are asked for, hold what a function gives for their numbers, the others 0.
fn row<const N: usize, F: Fn(u8) -> u8 + Drop>(count: u8, byte: F) -> [u8; N]
    requires { F.IsAlwaysCallable byte }
    ensures { (b : ℕ → ℕ) → ((k x : ℕ) → F.post byte k x → x ≡ b k) → result ≡ table_of N 0 b count }
{
    let mut row = [0; N];
    // a number, since `byte` takes it
    for k in 0..count {
        put(&mut row, k as usize, byte(k));
    }
    row
}

impl<'a> Topology<'a> {
    // The row of the domains' parents.
    pub(super) fn parents(&self) -> [u8; DOMAINS]
        ensures { result ≡ domain_row_of (parent_byte_of self.now.entries) (domains_of self.now.entries self.now.max) }
    {
        row(
            self.domain_count(),
            |k| self.entries.parent_byte(k as usize),
        )
    }

    // The domains directly below domain k.
    fn child_span(&self, k: u8) -> Span
        ensures { result ≡ child_span_of self.now.entries self.now.max k }
    {
        if self.entries.level(self.max, k as usize) == 1 {
            return Span { start: 0, end: 0 };
        }
        let start = self.entries.start(k as usize) as u8;
        let end = self.entries.start(k as usize + 1) as u8;
        Span { start, end }
    }

    // The rows of the starts and of the ends of those spans.
    pub(super) fn child_spans(&self) -> ([u8; DOMAINS], [u8; DOMAINS])
        ensures starts { result.0 ≡ domain_row_of (λ k. (child_span_of self.now.entries self.now.max k).start)
            (domains_of self.now.entries self.now.max) }
        ensures ends { result.1 ≡ domain_row_of (λ k. (child_span_of self.now.entries self.now.max k).end)
            (domains_of self.now.entries self.now.max) }
    {
        let mut starts = [0; DOMAINS];
        let mut ends = [0; DOMAINS];
        // a loop, so that each span is found once
        for k in 0..self.domain_count() {
            let span = self.child_span(k);
            put(&mut starts, k as usize, span.start);
            put(&mut ends, k as usize, span.end);
        }
        (starts, ends)
    }

    // The domain directly above a CPU.
    pub(super) fn cpu_parent(&self, cpu: u8) -> u8
        ensures { result ≡ parent_of self.now.entries (cpu_node_of self.now.entries self.now.max cpu) }
    {
        let node = self.domain_count() as usize + cpu as usize;
        self.entries.parent(node)
    }

    // The row of the CPUs' parents.
    #[tactic(auto, unfolding(model::specs::Tree::cpu_parents_of))]
    pub(super) fn cpu_parents(&self) -> [u8; CPUS]
        ensures { result ≡ cpu_parents_of self.now.entries self.now.max }
    {
        row(self.cpu_count(), |cpu| self.cpu_parent(cpu))
    }
}
