// The calls that turn nothing off: on and set mode.
ghost use Rattle.std.specs.Prelude.{◌≡◌};
ghost use Rattle.model.specs.declared.call.Call.TheVariants as call;
ghost use Rattle.model.specs.Calls.{call_of};

use crate::Psci;
use model::answer::CallAnswer;
use model::cpu::EntryPoint;
use model::sorts::CpuNumber;
use model::state::SuspendMode;
use sound_calls::on::{cpu_on, set_suspend_mode};

impl Psci {
    // CPU_ON: turns a CPU on. The platform says whether the address is good, and what comes of its own part.
    pub fn cpu_on(
        self,
        caller: CpuNumber,
        target: CpuNumber,
        entry: EntryPoint,
        address_good: bool,
        answer: u8,
    ) -> CallAnswer
        ensures { result ≡ call_of self.state (call.On caller target entry address_good answer) }
    {
        self.on_sound(|s| cpu_on(s, caller, target, entry, address_good, answer))
    }

    // PSCI_SET_SUSPEND_MODE: sets who coordinates the power states.
    pub fn set_suspend_mode(self, caller: CpuNumber, feature: bool, mode: SuspendMode) -> CallAnswer
        ensures { result ≡ call_of self.state (call.SetMode caller feature mode) }
    {
        self.on_sound(|s| set_suspend_mode(s, caller, feature, mode))
    }
}
