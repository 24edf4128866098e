ghost use Rattle.std.specs.Prelude.{◌≡◌};
ghost use Rattle.model.specs.declared.code.Refusal.TheVariants as code;
ghost use Rattle.model.specs.Answer.{must};
ghost use Rattle.model.specs.Calls.{runningb};

use cpu::is_on;
use model::code::Refusal;
use model::cpu::CpuPowerNode;

// Is the CPU running: On and RUN?
pub fn is_running(node: CpuPowerNode) -> bool
    ensures { result ≡ runningb node }
{
    is_on(node.affinity_info) & (node.local_state == 0)
}

// After 102 every call first: 103, and then what the further checks give.
pub fn for_cpu(exists: bool, further: Result<(), Refusal>) -> Result<(), Refusal>
    ensures { result ≡ must exists code.NoCaller further }
{
    if !exists {
        return Err(Refusal::NoCaller);
    }
    further
}

// Then 104, not for boot and finish.
pub fn for_caller(
    exists: bool,
    node: CpuPowerNode,
    further: Result<(), Refusal>,
) -> Result<(), Refusal>
    ensures { result ≡ must exists code.NoCaller (must (runningb node) code.NotRunning further) }
{
    for_cpu(exists, Ok(()))?;
    if !is_running(node) {
        return Err(Refusal::NotRunning);
    }
    further
}
