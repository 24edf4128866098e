use crate::cpu::EntryPoint;
use crate::sorts::CpuNumber;
use crate::state::SuspendMode;
use crate::states::CompositeState;

// A call with what the platform answers to its questions. An answer is a byte that is read with its sign.
#[derive(Clone, Copy)]
pub enum Call {
    // caller, target, entry, whether its address is good, the platform's answer
    On(CpuNumber, CpuNumber, EntryPoint, bool, u8),
    // caller, the answer to the early question
    Off(CpuNumber, u8),
    // caller, whether an interrupt is pending, entry, the states asked for
    Suspend(CpuNumber, bool, EntryPoint, CompositeState),
    Finish(CpuNumber),
    Boot(CpuNumber),
    // caller, whether there is the feature, an interrupt pending, a good address; entry, the platform's states
    SystemSuspend(CpuNumber, bool, bool, bool, EntryPoint, CompositeState),
    // caller, whether there is the feature, the mode
    SetMode(CpuNumber, bool, SuspendMode),
}
