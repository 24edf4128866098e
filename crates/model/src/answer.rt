use crate::code::Refusal;
use crate::cpu::{CpuPowerNode, EntryPoint};
use crate::sorts::PowerLevel;
use crate::state::{Domains, State};
use crate::states::CompositeState;

// What a call tells the platform or the SPM, where the Rust calls into their traits. A CPU that goes down hands over the resolved
// states, one that wakes the stored ones along its path.
#[derive(Clone, Copy)]
pub enum Notice {
    // the SPM is told of CPU_OFF, of CPU_SUSPEND, of SYSTEM_SUSPEND: `forward_psci_request`
    SpmToldOff,
    SpmToldSuspend(EntryPoint),
    SpmToldSystemSuspend(EntryPoint),
    // `notify_cpu_off`
    SpmNotifiedOff,
    // `notify_cpu_suspend_powerdown_abandoned`
    SpmAbandon,
    // `cpu_power_down`, with the highest power-down level
    CorePowerDown(PowerLevel),
    // `power_domain_off`
    PlatformOff(CompositeState),
    // `power_domain_suspend`
    PlatformSuspend(CompositeState),
    // `power_domain_power_down`
    PlatformPowerDown(CompositeState),
    // `power_domain_suspend_finish`
    SuspendFinish(CompositeState),
    // `power_domain_on_finish`
    OnFinish(CompositeState),
}

// The notices of a call, in order; no call has more. The unused places come last. Five fields: of an array in a field no clause
// sees the length.
#[derive(Clone, Copy)]
pub struct Notices {
    pub first: Option<Notice>,
    pub second: Option<Notice>,
    pub third: Option<Notice>,
    pub fourth: Option<Notice>,
    pub fifth: Option<Notice>,
}

// How a CPU woke: the Rust's `WakeUpReason`.
#[derive(Clone, Copy, PartialEq, Eq)]
pub enum WakeUpReason {
    CpuOn,
    SuspendFinished,
}

// What goes out with an answer.
#[derive(Clone, Copy)]
pub struct Outgoing {
    // the states that the platform is handed, RUN where it is handed none
    pub states: CompositeState,
    pub notices: Notices,
    // a suspend that is accepted, but not entered, since an interrupt is pending
    pub not_entered: bool,
    // which wake it was, where a CPU boots
    pub wake: Option<WakeUpReason>,
    // the entry point that a boot hands out
    pub entry: Option<EntryPoint>,
}

// What a call makes of its CPU's record and of the domains, and what goes out.
#[derive(Clone, Copy)]
pub struct Step {
    pub node: CpuPowerNode,
    pub domains: Domains,
    pub out: Outgoing,
}

// What a call answers. Beside a refusal stands the state as it was handed in, and nothing goes out. No Result: the theorem
// `call_keeps` names the state beside the code, of refusals too, and `off_handed` what goes out beside it.
#[derive(Clone, Copy)]
pub struct CallAnswer {
    pub code: Result<(), Refusal>,
    pub out: Outgoing,
    pub state: State,
}
