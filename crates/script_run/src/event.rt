// An event on a state that lies in rows: its call, and the states that its answer record shows. The state is not handed over.
ghost use Rattle.std.specs.Prelude.{cond, ◌≡◌, ltb};
ghost use Rattle.cpu_table.specs.CpuTable.{SameCpus, lent_cpus};
ghost use Rattle.model.specs.Path.{local_states_of};
ghost use Rattle.paths.specs.Rows.{SameRows, lent_domains};
ghost use Rattle.script.specs.AnswerRecord.{no_cpu_states};
ghost use Rattle.script.specs.Run.{event_answer_as};
ghost use Rattle.script_run.specs.Rows.{event_answer, state_in};

use cpu_table::CpuTable;
use events::{caller, named_cpu};
use in_place::any::call;
use model::board::{Board, Tree};
use model::call::Call;
use model::code::Refusal;
use model::cpu::CpuPowerNode;
use model::limits::DOMAINS;
use model::sorts::{CpuNumber, PowerLevel};
use model::state::SuspendMode;
use model::states::CompositeState;
use paths::DomainRows;
use paths::ancestors::local_states_from_nodes;
use script::limits::NO_CPU_STATE;

// What an event gives, beside the rows. No Result, as `EventAnswer` is none, and not that: the definition `event_answer_of` gives it a State.
#[derive(Drop)]
pub(super) struct EventStep {
    pub code: Result<(), Refusal>,
    pub shown: CompositeState,
    pub mode: SuspendMode,
}

// The stored states along a CPU's path, or FFh at each level if there is no such CPU.
fn shown_states<'a>(
    parents: &'a [u8; DOMAINS],
    states: &'a [u8; DOMAINS],
    count: u8,
    max: PowerLevel,
    cpu: CpuNumber,
    node: CpuPowerNode,
) -> CompositeState
    ensures { result ≡ cond (ltb cpu.0 count) (local_states_of parents.now states.now max.0 node) no_cpu_states }
{
    if cpu.0 < count {
        return local_states_from_nodes(parents, states, max, node);
    }
    CompositeState {
        level0: NO_CPU_STATE,
        level1: NO_CPU_STATE,
        level2: NO_CPU_STATE,
        level3: NO_CPU_STATE,
    }
}

// What an event gives where the test of the state came out as is said.
pub(super) fn event(
    sound: bool,
    board: Board,
    tree: Tree,
    mode: SuspendMode,
    rows: &mut DomainRows,
    cpus: &mut CpuTable,
    event: Call,
) -> EventStep
    ensures same_rows { SameRows rows.old rows.new }
    ensures same_cpus { SameCpus cpus.old cpus.new }
    ensures value { event_answer result.code result.shown
        (state_in board tree (lent_cpus cpus.new) (lent_domains rows.new) result.mode)
        ≡ event_answer_as sound (state_in board tree (lent_cpus cpus.old) (lent_domains rows.old) mode) event }
{
    let p = board.platform;
    let max = p.max;
    let count = tree.cpu_count;
    let cpu = named_cpu(event);
    let node = cpus.cpu_in(cpu);
    if sound {
        let by = cpus.cpu_in(caller(event));
        let affinities = &*cpus.affinities;
        let done = call(tree, rows, affinities, p, mode, by, node, event);
        cpus.store_cpu(cpu, done.node);
        let left = cpus.cpu_in(cpu);
        let states = &*rows.states;
        return EventStep {
            code: done.code,
            shown: shown_states(&tree.parents, states, count, max, cpu, left),
            mode: done.mode,
        };
    }
    let states = &*rows.states;
    EventStep {
        code: Err(Refusal::NotSound),
        shown: shown_states(&tree.parents, states, count, max, cpu, node),
        mode,
    }
}
