// The calls of a CPU that wakes: finish and boot.
ghost use Rattle.std.specs.Prelude.{◌≡◌};
ghost use Rattle.model.specs.declared.call.Call.TheVariants as call;
ghost use Rattle.model.specs.Calls.{call_of};

use crate::Psci;
use model::answer::CallAnswer;
use model::sorts::CpuNumber;
use sound_calls::wake::{cpu_suspend_finish, handle_cpu_boot};

impl Psci {
    // The rest of a suspend after its wait.
    pub fn cpu_suspend_finish(self, cpu: CpuNumber) -> CallAnswer
        ensures { result ≡ call_of self.state (call.Finish cpu) }
    {
        self.on_sound(|s| cpu_suspend_finish(s, cpu))
    }

    // A CPU that is powered up: after CPU_ON, or from a suspend that lost its state.
    pub fn handle_cpu_boot(self, cpu: CpuNumber) -> CallAnswer
        ensures { result ≡ call_of self.state (call.Boot cpu) }
    {
        self.on_sound(|s| handle_cpu_boot(s, cpu))
    }
}
