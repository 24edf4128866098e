// A CPU's record: the functions of the Rust's `CpuPowerNode`; its setters on a record that is lent stand in `cpu_lent`.
#![tactic(auto)]

ghost use Rattle.std.specs.Prelude.{◌≡◌};
ghost use Rattle.model.specs.Cpu.{affinity_info_of, heldb, local_state_of, new_of, onb, pendingb, pop_entry_point_of};
ghost use Rattle.model.specs.Cpu.{set_affinity_info_of, set_entry_point_of, set_local_state_of};

use model::code::Refusal;
use model::cpu::{AffinityInfo, CpuPowerNode, EntryPoint};
use model::sorts::DomainNumber;

// A new CPU below a domain: it is Off, and holds no entry.
pub fn new(parent: DomainNumber, off: u8) -> CpuPowerNode
    ensures { result ≡ new_of parent off }
{
    CpuPowerNode {
        parent,
        affinity_info: AffinityInfo::Off,
        local_state: off,
        entry_point: None,
    }
}

// The affinity of the CPU.
pub fn affinity_info(cpu: CpuPowerNode) -> AffinityInfo
    ensures { result ≡ affinity_info_of cpu }
{
    cpu.affinity_info
}

// Sets the affinity of the CPU.
pub fn set_affinity_info(cpu: CpuPowerNode, affinity_info: AffinityInfo) -> CpuPowerNode
    ensures { result ≡ set_affinity_info_of cpu affinity_info }
{
    CpuPowerNode {
        affinity_info,
        ..cpu
    }
}

// The state of the CPU.
pub fn local_state(cpu: CpuPowerNode) -> u8
    ensures { result ≡ local_state_of cpu }
{
    cpu.local_state
}

// Sets the state of the CPU.
pub fn set_local_state(cpu: CpuPowerNode, local_state: u8) -> CpuPowerNode
    ensures { result ≡ set_local_state_of cpu local_state }
{
    CpuPowerNode { local_state, ..cpu }
}

// Keeps an entry, and gives the record back beside the answer; where one is held that one stays, and the answer is 102.
pub fn set_entry_point(
    cpu: CpuPowerNode,
    entry_point: EntryPoint,
) -> (Result<(), Refusal>, CpuPowerNode)
    ensures { result ≡ ((set_entry_point_of cpu entry_point).code, (set_entry_point_of cpu entry_point).cpu) }
{
    let kept = CpuPowerNode {
        entry_point: Some(entry_point),
        ..cpu
    };
    if is_held(cpu.entry_point) {
        return (Err(Refusal::NotSound), cpu);
    }
    (Ok(()), kept)
}

// Hands out the entry, and clears it.
pub fn pop_entry_point(cpu: &mut CpuPowerNode) -> Option<EntryPoint>
    ensures entry { result ≡ (pop_entry_point_of cpu.old).entry }
    ensures left { cpu.new ≡ (pop_entry_point_of cpu.old).cpu }
{
    cpu.entry_point.take()
}

// Is the affinity On?
pub fn is_on(affinity_info: AffinityInfo) -> bool
    ensures { result ≡ onb affinity_info }
{
    affinity_info == AffinityInfo::On
}

// Is the affinity OnPending?
pub fn is_pending(affinity_info: AffinityInfo) -> bool
    ensures { result ≡ pendingb affinity_info }
{
    affinity_info == AffinityInfo::OnPending
}

// Is an entry held?
pub fn is_held(entry_point: Option<EntryPoint>) -> bool
    ensures { result ≡ heldb entry_point }
{
    entry_point.is_some()
}
