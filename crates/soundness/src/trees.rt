ghost use Rattle.std.specs.Prelude.{cond, true, ◌≡◌, eqb};
ghost use Rattle.model.specs.SoundTest.{entries_endb, same_rowb, same_treeb};

use model::board::Tree;
use model::limits::{DOMAINS, ENTRIES};

// Have two rows the same byte at each domain's number?
fn same_row(a: &[u8; DOMAINS], b: &[u8; DOMAINS]) -> bool
    ensures { result ≡ same_rowb a.now b.now }
{
    a == b
}

// Are two trees the same? Field by field: with a derive on Tree `a == b` was not proved to be `same_treeb`.
pub(super) fn same_tree(a: Tree, b: Tree) -> bool
    ensures { result ≡ same_treeb a b }
{
    (a.domain_count == b.domain_count)
        & (a.cpu_count == b.cpu_count)
        & same_row(&a.parents, &b.parents)
        & same_row(&a.cpu_starts, &b.cpu_starts)
        & same_row(&a.cpu_ends, &b.cpu_ends)
        & same_row(&a.child_starts, &b.child_starts)
        & same_row(&a.child_ends, &b.child_ends)
}

// Is a byte 0 where it must be?
fn zero_if(must: bool, byte: u8) -> bool
    ensures { result ≡ cond must (eqb byte 0) true }
{
    if must {
        return byte == 0;
    }
    true
}

// Is the row 0 past the topology's last entry? That is a byte of a state that need not be sound.
#[tactic(auto, unfolding(model::specs::Below::every))]
pub(super) fn entries_end(row: &[u8; ENTRIES], last: u8) -> bool
    ensures { result ≡ entries_endb row.now last }
{
    let end = last as usize;
    let mut ends = true;
    for (i, entry) in row.iter().enumerate() {
        ends = ends & zero_if(end < i, *entry);
    }
    ends
}
