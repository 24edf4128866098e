// Tables of CPU records: a read and a store that no number can break. By themselves, and not by `at_or` and `with` of `rows`: lent to
// the one, or handed on to the other, the whole table would be copied once more.
#![tactic(auto)]

ghost use Rattle.std.specs.Prelude.{◌≡◌, get_or, set};
ghost use Rattle.model.specs.State.{no_cpu};

use model::cpu::{AffinityInfo, CpuPowerNode};
use model::limits::CPUS;
use model::sorts::{CpuNumber, DomainNumber};

// The record in a slot where there is no CPU.
pub fn no_cpu() -> CpuPowerNode
    ensures { result ≡ no_cpu }
{
    CpuPowerNode {
        parent: DomainNumber(0),
        affinity_info: AffinityInfo::On,
        local_state: 0,
        entry_point: None,
    }
}

// The record of a CPU; past the table's end it is that of no CPU.
pub fn cpu_in(cpus: [CpuPowerNode; CPUS], cpu: CpuNumber) -> CpuPowerNode
    ensures { result ≡ get_or cpus cpu.0 no_cpu }
{
    let i = cpu.0 as usize;
    if i < CPUS {
        return cpus[i];
    }
    no_cpu()
}

// The table after a store; past its end nothing is stored.
pub fn with_cpu_record(
    cpus: [CpuPowerNode; CPUS],
    cpu: CpuNumber,
    node: CpuPowerNode,
) -> [CpuPowerNode; CPUS]
    ensures { result ≡ set cpus cpu.0 node }
{
    let mut next = cpus;
    let i = cpu.0 as usize;
    if i < CPUS {
        next[i] = node;
    }
    next
}
