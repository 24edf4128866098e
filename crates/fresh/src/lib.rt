// The state that a board starts in.
#![tactic(auto)]

mod off;

ghost use Rattle.std.specs.Prelude.{◌≡◌};
ghost use Rattle.model.specs.Fresh.{all_off_of, brought_up, fresh_of, no_state};
ghost use Rattle.model.specs.Tree.{cpu_parents_of, tree_of};

use cpu_lent::setters::{set_affinity_info, set_local_state};
use cpu_rows::{cpu_in, no_cpu, with_cpu_record};
use levels::levels_filled;
use model::board::{Board, Tree};
use model::code::Refusal;
use model::cpu::AffinityInfo;
use model::limits::{CPUS, DOMAINS, ENTRIES, REQUESTS};
use model::node::NO_SUSPEND_STATE;
use model::sorts::{CpuNumber, PowerLevel};
use model::state::{Domains, FreshAnswer, State, SuspendMode};
use model::states::Platform;
use topology::{no_tree, power_domain_tree};
use up::running_domains;

// All is off, on the tree that the topology describes.
fn all_off(
    p: Platform,
    primary: CpuNumber,
    topology: &[u8],
    tree: Tree,
    parents: [u8; CPUS],
) -> State
    requires { (tree ≡ tree_of topology.now p.max.0) × (parents ≡ cpu_parents_of topology.now p.max.0) }
    ensures { result ≡ all_off_of p primary topology.now }
{
    let off = states::platform::off(p);
    let row = off::stored(topology);
    let cpus = off::cpus_off(parents, tree.cpu_count, off);
    let states = off::states_off(tree.domain_count, off);
    let requests = levels_filled(off, tree.cpu_count, p.max);
    let suspends = levels_filled(NO_SUSPEND_STATE, tree.cpu_count, p.max);
    let copies = off::copies_off(tree.parents, tree.domain_count, off);
    let board = Board {
        platform: p,
        primary,
        topology: row,
    };
    let domains = Domains {
        states,
        requests,
        suspends,
        copies,
    };
    State {
        board,
        tree,
        cpus,
        domains,
        mode: SuspendMode::PlatformCoordinated,
    }
}

// The CPU is On and RUN, with `set_running` along its path.
fn bring_up(s: State, cpu: CpuNumber) -> State
    ensures { result ≡ brought_up s cpu.0 }
{
    let mut running = cpu_in(s.cpus, cpu);
    set_affinity_info(&mut running, AffinityInfo::On);
    set_local_state(&mut running, 0);
    let cpus = with_cpu_record(s.cpus, cpu, running);
    let domains = running_domains(s.tree, s.domains, s.board.platform.max, running.parent, cpu);
    State { cpus, domains, ..s }
}

// A state of zeros.
pub fn no_state() -> State
    ensures { result ≡ no_state }
{
    let platform = Platform {
        max: PowerLevel(0),
        states: 0,
        down: 0,
    };
    let nothing = no_cpu();
    let board = Board {
        platform,
        primary: CpuNumber(0),
        topology: [0; ENTRIES],
    };
    let domains = Domains {
        states: [0; DOMAINS],
        requests: [0; REQUESTS],
        suspends: [0; REQUESTS],
        copies: [0; DOMAINS],
    };
    let tree = no_tree();
    State {
        board,
        tree,
        cpus: [nothing; CPUS],
        domains,
        mode: SuspendMode::PlatformCoordinated,
    }
}

// All is off, and then the primary is brought up; a board that is not acceptable is 101.
pub fn fresh(platform: Platform, primary: CpuNumber, topology: &[u8]) -> FreshAnswer
    ensures { result ≡ fresh_of platform primary topology.now }
{
    let made = power_domain_tree(platform, primary, topology);
    if made.code.is_ok() {
        let s = all_off(platform, primary, topology, made.tree, made.cpu_parents);
        let state = bring_up(s, primary);
        return FreshAnswer {
            code: Ok(()),
            state,
        };
    }
    let state = no_state();
    FreshAnswer {
        code: Err(Refusal::BadBoard),
        state,
    }
}
