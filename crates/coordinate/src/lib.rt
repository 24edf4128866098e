// The states that the CPUs of a domain have asked for are brought together, level by level along a CPU's path.
#![tactic(auto)]

ghost use Rattle.std.specs.Prelude.{cond, ◌≡◌, get_or, set};
ghost use Rattle.model.specs.Coordinate.{coordinate_of, coordinated};
ghost use Rattle.model.specs.Minimum.{minimum_of};
ghost use Rattle.model.specs.Span.{from_tob};
ghost use Rattle.model.specs.States.{run};
ghost use Rattle.model.specs.Table.{at_level, set_at_level};
ghost use Rattle.coordinate.specs.Lowered.{lowered_of};

use composite::set_state_at;
use levels::{minimum_at_level, put_at_level};
use model::board::Tree;
use model::limits::{DOMAINS, REQUESTS};
use model::sorts::{CpuNumber, DomainNumber, PowerLevel};
use model::state::Domains;
use model::states::CompositeState;
use paths::ancestors::parent_byte;
use rows::cells::{at, put, put_if};
use states::composite::state_at;

// One level: stores the request, and gives back the resolved state, which the domain takes unless a level below came out RUN.
// Two rows of the four are lent: the others stay as they were, with no clause for it.
fn coordinate_level(
    tree: &Tree,
    states: &mut [u8; DOMAINS],
    requests: &mut [u8; REQUESTS],
    off: u8,
    cpu: u8,
    domain: u8,
    level: u8,
    wanted: u8,
    run_below: bool,
) -> u8
    ensures value { result ≡ cond run_below run (minimum_of (get_or tree.now.cpu_ends domain 0)
        (from_tob (get_or tree.now.cpu_starts domain 0) (get_or tree.now.cpu_ends domain 0))
        (at_level (set_at_level requests.old level cpu wanted) level) off) }
    ensures requests_after { requests.new ≡ set_at_level requests.old level cpu wanted }
    ensures states_after { states.new ≡ cond run_below states.old (set states.old domain result) }
{
    put_at_level(requests, PowerLevel(level), CpuNumber(cpu), wanted);
    if run_below {
        return 0;
    }
    let d = domain as usize;
    let start = at(&tree.cpu_starts, d);
    let x = minimum_at_level(
        requests,
        PowerLevel(level),
        start,
        at(&tree.cpu_ends, d),
        off,
    );
    put(states, d, x);
    x
}

// The Rust's `coordinate_state`, on lent rows: `asked` are the states asked for, the resolved ones are given back. It takes the three rows
// by themselves: by a `DomainRows` a suspend took 5 ns more (its two pointers are loaded as one from where they were stored), and missed its bar.
pub fn coordinate_state(
    tree: Tree,
    states: &mut [u8; DOMAINS],
    requests: &mut [u8; REQUESTS],
    copies: &mut [u8; DOMAINS],
    off: u8,
    first: DomainNumber,
    cpu: CpuNumber,
    upto: PowerLevel,
    asked: CompositeState,
) -> CompositeState
    ensures { coordinated states.new requests.new copies.new result
        ≡ coordinate_of tree off first.0 cpu.0 upto.0
        (coordinated states.old requests.old copies.old asked) }
{
    let mut v = asked;
    let mut d = first.0;
    // a number: the level below
    for below in 0..upto.0 {
        let level = below + 1;
        let wanted = state_at(v, PowerLevel(level));
        let under = state_at(v, PowerLevel(below));
        let run_below = (2 <= level) & (under == 0);
        let x = coordinate_level(
            &tree, states, requests, off, cpu.0, d, level, wanted, run_below,
        );
        put_if(copies, level < upto.0, d as usize, x);
        v = set_state_at(v, PowerLevel(level), x);
        d = parent_byte(&tree.parents, d);
    }
    v
}

// What coordinate makes of the domains, and the states that it resolved. (With a `Step` it shares the domains alone.)
#[derive(Clone, Copy)]
pub struct LoweredDomains {
    pub domains: Domains,
    pub resolved: CompositeState,
}

// The same by value, for a caller that has no rows of its own: it lends its own to the other.
pub fn lowered(
    tree: Tree,
    domains: Domains,
    off: u8,
    first: DomainNumber,
    cpu: CpuNumber,
    upto: PowerLevel,
    asked: CompositeState,
) -> LoweredDomains
    ensures { result ≡ lowered_of tree domains off first.0 cpu.0 upto.0 asked }
{
    let mut made = domains;
    let resolved = coordinate_state(
        tree,
        &mut made.states,
        &mut made.requests,
        &mut made.copies,
        off,
        first,
        cpu,
        upto,
        asked,
    );
    LoweredDomains {
        domains: made,
        resolved,
    }
}
