// Two functions: what they share is one `if`.
ghost use Rattle.std.specs.Prelude.{◌≡◌};
ghost use Rattle.model.specs.Calls.{boot_code, finish_code};

use composite::entry_due;
use cpu::is_on;
use model::code::Refusal;
use model::cpu::CpuPowerNode;
use model::states::Platform;

// Finish: due when On and not RUN.
pub fn finish_code(node: CpuPowerNode) -> Result<(), Refusal>
    ensures { result ≡ finish_code node }
{
    let due = is_on(node.affinity_info) & (node.local_state != 0);
    if !due {
        return Err(Refusal::NotDue);
    }
    Ok(())
}

// Boot: due when OnPending, or On with a power-down CPU state: then an entry is due.
pub fn boot_code(p: Platform, node: CpuPowerNode) -> Result<(), Refusal>
    ensures { result ≡ boot_code p node }
{
    if !entry_due(p, node.affinity_info, node.local_state) {
        return Err(Refusal::NotDue);
    }
    Ok(())
}
