ghost use Rattle.std.specs.Prelude.{◌≡◌};
ghost use Rattle.model.specs.Calls.{acted};

use cpu_rows::with_cpu_record;
use model::answer::{CallAnswer, Step};
use model::sorts::CpuNumber;
use model::state::State;

// What is done to a CPU's record and to the domains is done; nothing else changes.
pub(super) fn acted(mut state: State, cpu: CpuNumber, done: Step) -> CallAnswer
    ensures { result ≡ acted state cpu.0 (λ _ _. done) }
{
    state.cpus = with_cpu_record(state.cpus, cpu, done.node);
    state.domains = done.domains;
    CallAnswer {
        code: Ok(()),
        out: done.out,
        state,
    }
}
