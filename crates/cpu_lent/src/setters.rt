// The setters of the Rust's `CpuPowerNode`, on a record that is lent.
ghost use Rattle.std.specs.Prelude.{◌≡◌};
ghost use Rattle.model.specs.Cpu.{set_affinity_info_of, set_entry_point_of, set_local_state_of};

use cpu::is_held;
use model::code::Refusal;
use model::cpu::{AffinityInfo, CpuPowerNode, EntryPoint};

// Sets the affinity of the CPU.
pub fn set_affinity_info(cpu: &mut CpuPowerNode, affinity_info: AffinityInfo)
    ensures { cpu.new ≡ set_affinity_info_of cpu.old affinity_info }
{
    *cpu = cpu::set_affinity_info(*cpu, affinity_info);
}

// Sets the state of the CPU.
pub fn set_local_state(cpu: &mut CpuPowerNode, local_state: u8)
    ensures { cpu.new ≡ set_local_state_of cpu.old local_state }
{
    *cpu = cpu::set_local_state(*cpu, local_state);
}

// Keeps an entry; where one is held that one stays, and the answer is 102.
pub fn set_entry_point(cpu: &mut CpuPowerNode, entry_point: EntryPoint) -> Result<(), Refusal>
    ensures answer { result ≡ (set_entry_point_of cpu.old entry_point).code }
    ensures left { cpu.new ≡ (set_entry_point_of cpu.old entry_point).cpu }
{
    if is_held(cpu.entry_point) {
        return Err(Refusal::NotSound);
    }
    cpu.entry_point = Some(entry_point);
    Ok(())
}
