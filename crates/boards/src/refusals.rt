// What stands beside a refusal.
use crate::topologies::platform;
use fresh::fresh;
use lines::say;
use model::board::{Board, Tree};
use model::code::{Refusal, number};
use model::cpu::{AffinityInfo, CpuPowerNode};
use model::sorts::{CpuNumber, DomainNumber};
use model::state::{Domains, State, SuspendMode};
use soundness::sound;
use state_query::{are_all_cpus_on, is_last_cpu};

// Zeros are asked for field by field: `no_state` is the code that is checked here.

// The state beside the refusal of topology 1,2,2 at MAX 2.
fn refused() -> State {
    fresh(platform(2, 4, 2), CpuNumber(0), &[1, 2, 2]).state
}

fn zeros(row: &[u8]) -> bool {
    row.iter().all(|b| *b == 0)
}

fn board_zero(b: Board) -> bool {
    b.platform == platform(0, 0, 0) && b.primary == CpuNumber(0) && zeros(&b.topology)
}

fn tree_zero(t: Tree) -> bool {
    t.domain_count == 0
        && t.cpu_count == 0
        && zeros(&t.parents)
        && zeros(&t.cpu_starts)
        && zeros(&t.cpu_ends)
        && zeros(&t.child_starts)
        && zeros(&t.child_ends)
}

fn domains_zero(d: Domains) -> bool {
    zeros(&d.states) && zeros(&d.requests) && zeros(&d.suspends) && zeros(&d.copies)
}

// On is the first affinity, and so 0.
fn cpu_zero(c: CpuPowerNode) -> bool {
    c.parent == DomainNumber(0)
        && c.affinity_info == AffinityInfo::On
        && c.local_state == 0
        && c.entry_point.is_none()
}

// Platform-coordinated is the first mode, and so 0.
fn all_zero(s: State) -> bool {
    board_zero(s.board)
        && tree_zero(s.tree)
        && s.cpus.iter().all(|c| cpu_zero(*c))
        && domains_zero(s.domains)
        && s.mode == SuspendMode::PlatformCoordinated
}

// Is a query refused with 102?
fn is_102(asked: Result<bool, Refusal>) -> bool {
    asked.is_err_and(|refusal| number(Err(refusal)) == 102)
}

pub(super) fn run() {
    let s = refused();
    say("beside a refusal the state is all zeros", all_zero(s));
    say("that state is not sound", !sound(s));
    say(
        "are_all_cpus_on of that state is 102",
        is_102(are_all_cpus_on(s)),
    );
    say(
        "is_last_cpu of that state is 102",
        is_102(is_last_cpu(s, CpuNumber(0))),
    );
}
