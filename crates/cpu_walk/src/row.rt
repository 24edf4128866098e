// A walk over the lent row of CPU records.
ghost use Rattle.std.specs.Prelude.{◌||◌, ◌≡◌, eqb, get_or};
ghost use Rattle.model.specs.Cpu.{offb, onb};
ghost use Rattle.model.specs.State.{no_cpu};
ghost use Rattle.model.specs.StateQuery.{all_on_in, others_off_in};

use cpu::is_on;
use cpu_rows::no_cpu;
use model::cpu::{AffinityInfo, CpuPowerNode};
use rows::cells::at_or;

// Is the affinity Off? OnPending is not.
fn is_off(a: AffinityInfo) -> bool
    ensures { result ≡ offb a }
{
    a == AffinityInfo::Off
}

// Is the CPU at a place the one given, or Off?
fn off_but(node: CpuPowerNode, c: usize, cpu: usize) -> bool
    ensures { result ≡ (eqb c cpu || offb node.affinity_info) }
{
    (c == cpu) | is_off(node.affinity_info)
}

// Is the CPU On?
fn on(node: CpuPowerNode) -> bool
    ensures { result ≡ onb node.affinity_info }
{
    is_on(node.affinity_info)
}

// The record at a place; past the row's end it is that of no CPU.
pub fn cpu_at(cpus: &[CpuPowerNode], c: usize) -> CpuPowerNode
    ensures { result ≡ get_or cpus.now c no_cpu }
{
    at_or(cpus, c, no_cpu())
}

// Is every CPU of the first so many Off, but for one?
pub fn others_off(cpus: &[CpuPowerNode], count: usize, cpu: usize) -> bool
    ensures { result ≡ others_off_in cpus.now count cpu }
{
    for c in 0..count {
        if !off_but(cpu_at(cpus, c), c, cpu) {
            return false;
        }
    }
    true
}

// Is every CPU of the first so many On?
pub fn all_on(cpus: &[CpuPowerNode], count: usize) -> bool
    ensures { result ≡ all_on_in cpus.now count }
{
    for c in 0..count {
        if !on(cpu_at(cpus, c)) {
            return false;
        }
    }
    true
}
