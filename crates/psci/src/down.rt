// The calls of a CPU that goes down: off, suspend and system suspend.
ghost use Rattle.std.specs.Prelude.{◌≡◌};
ghost use Rattle.model.specs.declared.call.Call.TheVariants as call;
ghost use Rattle.model.specs.Calls.{call_of};

use crate::Psci;
use model::answer::CallAnswer;
use model::cpu::EntryPoint;
use model::sorts::CpuNumber;
use model::states::CompositeState;
use sound_calls::down::{cpu_off, cpu_suspend_start, system_suspend};

impl Psci {
    // CPU_OFF: the caller turns itself off. The platform is asked early whether it may.
    pub fn cpu_off(self, caller: CpuNumber, early_answer: u8) -> CallAnswer
        ensures { result ≡ call_of self.state (call.Off caller early_answer) }
    {
        self.on_sound(|s| cpu_off(s, caller, early_answer))
    }

    // CPU_SUSPEND up to its wait.
    pub fn cpu_suspend_start(
        self,
        caller: CpuNumber,
        pending: bool,
        entry: EntryPoint,
        asked: CompositeState,
    ) -> CallAnswer
        ensures { result ≡ call_of self.state (call.Suspend caller pending entry asked) }
    {
        self.on_sound(|s| cpu_suspend_start(s, caller, pending, entry, asked))
    }

    // SYSTEM_SUSPEND up to its wait: the last CPU that is on suspends to the states that the platform has for this.
    pub fn system_suspend(
        self,
        caller: CpuNumber,
        feature: bool,
        pending: bool,
        address_good: bool,
        entry: EntryPoint,
        asked: CompositeState,
    ) -> CallAnswer
        ensures { result ≡ call_of self.state (call.SystemSuspend caller feature pending address_good entry asked) }
    {
        self.on_sound(|s| system_suspend(s, caller, feature, pending, address_good, entry, asked))
    }
}
