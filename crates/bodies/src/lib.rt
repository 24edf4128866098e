// The calls' bodies on the parts of a state that they read: no test of the record, and no copy of the whole.
// Tree, platform, number and record stay four arguments: they stand in four places of a state, and a struct of them would be made for each call.
#![tactic(auto)]

ghost use Rattle.std.specs.Prelude.{◌≡◌};
ghost use Rattle.model.specs.Steps.{boot_step, enter_step, finish_step, off_step};

use composite::{all_off, level_found};
use coordinate::lowered;
use cpu_steps::{booted, finished, suspended, turned_off};
use model::answer::{Notice, Step};
use model::board::Tree;
use model::cpu::{CpuPowerNode, EntryPoint};
use model::sorts::CpuNumber;
use model::state::Domains;
use model::states::{CompositeState, Platform};
use outgoing::{boot_out, finish_out, off_out, suspend_out};
use paths::ancestors::local_states_from_nodes;
use states::platform::off;
use states::request::find_highest_non_run_level;
use up::running_domains;

// By itself beside `enter`, as `finish` beside `boot`: what the two share is the walk; the record and what goes out are each its own.
// A CPU turns off: OFF is coordinated at all levels.
pub fn turn_off(
    tree: Tree,
    domains: Domains,
    p: Platform,
    cpu: CpuNumber,
    node: CpuPowerNode,
) -> Step
    ensures { result ≡ off_step tree domains p cpu.0 node }
{
    let low = lowered(tree, domains, off(p), node.parent, cpu, p.max, all_off(p));
    Step {
        node: turned_off(p, node),
        domains: low.domains,
        out: off_out(p, low.resolved),
    }
}

// A CPU suspends: only domains up to the highest affected level are touched. The notice is what the SPM is told.
pub fn enter(
    tree: Tree,
    domains: Domains,
    p: Platform,
    cpu: CpuNumber,
    node: CpuPowerNode,
    asked: CompositeState,
    entry: EntryPoint,
    told: Notice,
) -> Step
    ensures { result ≡ enter_step tree domains p cpu.0 node asked entry told }
{
    let upto = level_found(find_highest_non_run_level(p, asked));
    let low = lowered(tree, domains, off(p), node.parent, cpu, upto, asked);
    Step {
        node: suspended(p, node, low.resolved, entry),
        domains: low.domains,
        out: suspend_out(p, low.resolved, told),
    }
}

// A suspend goes on after its wait: the states along the whole path are handed out, and the CPU is RUN.
pub fn finish(tree: Tree, domains: Domains, p: Platform, cpu: CpuNumber, node: CpuPowerNode) -> Step
    ensures { result ≡ finish_step tree domains p cpu.0 node }
{
    let states = local_states_from_nodes(&tree.parents, &domains.states, p.max, node);
    Step {
        node: finished(p, node),
        domains: running_domains(tree, domains, p.max, node.parent, cpu),
        out: finish_out(p, states),
    }
}

// A CPU boots: the states along the whole path are handed out, and the CPU is On and RUN.
pub fn boot(tree: Tree, domains: Domains, p: Platform, cpu: CpuNumber, node: CpuPowerNode) -> Step
    ensures { result ≡ boot_step tree domains p cpu.0 node }
{
    let states = local_states_from_nodes(&tree.parents, &domains.states, p.max, node);
    Step {
        node: booted(node),
        domains: running_domains(tree, domains, p.max, node.parent, cpu),
        out: boot_out(node, states),
    }
}
