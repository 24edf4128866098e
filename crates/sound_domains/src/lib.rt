// The part of the test of a state record that looks at domains.
#![tactic(auto)]

ghost use Rattle.std.specs.Prelude.{cond, ◌&&◌, ◌≡◌, eqb, get_or};
ghost use Rattle.model.specs.Below.{every};
ghost use Rattle.model.specs.Limits.{domain_limit};
ghost use Rattle.model.specs.Minimum.{minimum_of};
ghost use Rattle.model.specs.Path.{level_at};
ghost use Rattle.model.specs.SoundTest.{copyb, domain_slotb, domain_usedb};
ghost use Rattle.model.specs.Span.{from_tob};
ghost use Rattle.model.specs.States.{off_of};
ghost use Rattle.model.specs.Table.{at_level};

use levels::minimum_at_level;
use model::board::{NO_PARENT, Tree};
use model::limits::DOMAINS;
use model::sorts::DomainNumber;
use model::state::Domains;
use model::states::Platform;
use paths::ancestors::level_of;
use rows::cells::at;
use states::platform::{off, state_in_range};

// Is the copy of a domain in range, or 0 where it has no parent?
fn copy_good(p: Platform, parent: u8, copy: u8) -> bool
    ensures { result ≡ copyb p parent copy }
{
    if parent == NO_PARENT {
        return copy == 0;
    }
    state_in_range(p, copy)
}

// Are a domain's state and copy as they must be?
fn domain_used(p: Platform, parent: u8, state: u8, minimum: u8, copy: u8) -> bool
    ensures { result ≡ domain_usedb p parent state minimum copy }
{
    state_in_range(p, state) & (state == minimum) & copy_good(p, parent, copy)
}

// Is the slot of a domain as it must be, where there is one and where there is none?
fn domain_slot(used: bool, p: Platform, parent: u8, state: u8, minimum: u8, copy: u8) -> bool
    ensures { result ≡ cond used (domain_usedb p parent state minimum copy) (eqb state 0 && eqb copy 0) }
{
    if used {
        return domain_used(p, parent, state, minimum, copy);
    }
    (state == 0) & (copy == 0)
}

// The minimum of the requests of a domain.
fn minimum_in(p: Platform, tree: &Tree, requests: &[u8], domain: u8) -> u8
    ensures { result ≡ minimum_of (get_or tree.now.cpu_ends domain 0)
        (from_tob (get_or tree.now.cpu_starts domain 0) (get_or tree.now.cpu_ends domain 0))
        (at_level requests.now (level_at tree.now.parents p.max.0 domain)) (off_of p) }
{
    let k = domain as usize;
    let level = level_of(&tree.parents, p.max, DomainNumber(domain));
    let start = at(&tree.cpu_starts, k);
    minimum_at_level(requests, level, start, at(&tree.cpu_ends, k), off(p))
}

// Is every domain's slot as it must be?
pub fn domains_sound(p: Platform, tree: Tree, domains: Domains) -> bool
    ensures { result ≡ every domain_limit (domain_slotb p tree domains) }
{
    let count = tree.domain_count as usize;
    let mut sound = true;
    // a number: the domain's, whose level is asked for
    for k in 0..DOMAINS {
        let minimum = minimum_in(p, &tree, &domains.requests, k as u8);
        let parent = at(&tree.parents, k);
        let state = at(&domains.states, k);
        let copy = at(&domains.copies, k);
        sound = sound & domain_slot(k < count, p, parent, state, minimum, copy);
    }
    sound
}
