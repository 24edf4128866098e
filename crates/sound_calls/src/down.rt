// The calls of a CPU that goes down: off, suspend and system suspend.
ghost use Rattle.std.specs.Prelude.{◌≡◌};
ghost use Rattle.model.specs.Answer.{decided};
ghost use Rattle.model.specs.Calls.{cpu_off_of, cpu_suspend_start_of, entered, system_suspend_of, unless_pending};

use crate::acted::acted;
use bodies::{enter, turn_off};
use checks::caller::for_caller;
use checks::suspend::suspend_code;
use checks::system_suspend::system_suspend_code;
use cpu_rows::cpu_in;
use cpu_walk::others_off_in;
use model::answer::{CallAnswer, Notice};
use model::code::{Refusal, of_answer};
use model::cpu::EntryPoint;
use model::sorts::CpuNumber;
use model::state::State;
use model::states::CompositeState;
use outgoing::{not_entered_out, refused};

// CPU_OFF: the caller turns itself off. The platform is asked early whether it may.
#[tactic(auto, unfolding(model::specs::Answer::decided, model::specs::Calls::cpu_off_of))]
pub fn cpu_off(state: State, caller: CpuNumber, early_answer: u8) -> CallAnswer
    ensures { result ≡ cpu_off_of state caller early_answer }
{
    let node = cpu_in(state.cpus, caller);
    let code = for_caller(
        caller.0 < state.tree.cpu_count,
        node,
        of_answer(early_answer),
    );
    if code.is_err() {
        return refused(state, code);
    }
    acted(
        state,
        caller,
        turn_off(
            state.tree,
            state.domains,
            state.board.platform,
            caller,
            node,
        ),
    )
}

// A suspend is entered where the code grants it, but not with an interrupt pending. The notice is what the SPM is told.
#[tactic(auto, unfolding(model::specs::Answer::decided))]
fn suspend(
    state: State,
    caller: CpuNumber,
    code: Result<(), Refusal>,
    pending: bool,
    entry: EntryPoint,
    asked: CompositeState,
    told: Notice,
) -> CallAnswer
    ensures { result ≡ decided state code (unless_pending state pending (entered state caller.0 asked entry told)) }
{
    if code.is_err() {
        return refused(state, code);
    }
    if pending {
        return CallAnswer {
            code: Ok(()),
            out: not_entered_out(),
            state,
        };
    }
    let node = cpu_in(state.cpus, caller);
    let done = enter(
        state.tree,
        state.domains,
        state.board.platform,
        caller,
        node,
        asked,
        entry,
        told,
    );
    acted(state, caller, done)
}

// CPU_SUSPEND up to its wait.
#[tactic(auto, unfolding(model::specs::Calls::cpu_suspend_start_of))]
pub fn cpu_suspend_start(
    state: State,
    caller: CpuNumber,
    pending: bool,
    entry: EntryPoint,
    asked: CompositeState,
) -> CallAnswer
    ensures { result ≡ cpu_suspend_start_of state caller pending entry asked }
{
    let node = cpu_in(state.cpus, caller);
    let own = suspend_code(state.board.platform, state.mode, asked);
    let code = for_caller(caller.0 < state.tree.cpu_count, node, own);
    suspend(
        state,
        caller,
        code,
        pending,
        entry,
        asked,
        Notice::SpmToldSuspend(entry),
    )
}

// SYSTEM_SUSPEND up to its wait: the last CPU that is on suspends to the states that the platform has for this.
#[tactic(auto, unfolding(model::specs::Calls::system_suspend_of))]
pub fn system_suspend(
    state: State,
    caller: CpuNumber,
    feature: bool,
    pending: bool,
    address_good: bool,
    entry: EntryPoint,
    asked: CompositeState,
) -> CallAnswer
    ensures { result ≡ system_suspend_of state caller feature pending address_good entry asked }
{
    let node = cpu_in(state.cpus, caller);
    let last = others_off_in(state.cpus, state.tree.cpu_count, caller.0);
    let own = system_suspend_code(
        state.board.platform,
        state.mode,
        feature,
        last,
        address_good,
        asked,
    );
    let code = for_caller(caller.0 < state.tree.cpu_count, node, own);
    suspend(
        state,
        caller,
        code,
        pending,
        entry,
        asked,
        Notice::SpmToldSystemSuspend(entry),
    )
}
