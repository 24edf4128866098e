// What a state says of its CPUs and domains: the queries of the Rust's `PowerDomainTree`, by value.
#![tactic(auto)]

ghost use Rattle.std.specs.Prelude.{◌≡◌, Ok, ltb};
ghost use Rattle.model.specs.declared.code.Refusal.TheVariants as code;
ghost use Rattle.model.specs.Answer.{must};
ghost use Rattle.model.specs.SoundTest.{soundb};
ghost use Rattle.model.specs.State.{cpu_count_of};
ghost use Rattle.model.specs.StateQuery.{are_all_cpus_on_of, is_last_cpu_of, is_last_cpu_to_idle_at_power_level_of};

use crate::bodies::{idle_query, last_query, on_query};
use model::code::Refusal;
use model::sorts::{CpuNumber, PowerLevel};
use model::state::State;
use soundness::sound;

mod bodies;
pub mod nodes;

// 102 for a state that is not sound, 103 for a number that is no CPU's.
fn known(s: State, cpu: CpuNumber) -> Result<(), Refusal>
    ensures { result ≡ must (soundb s) code.NotSound (must (ltb cpu.0 (cpu_count_of s)) code.NoCaller (Ok tt)) }
{
    if !sound(s) {
        return Err(Refusal::NotSound);
    }
    if s.tree.cpu_count <= cpu.0 {
        return Err(Refusal::NoCaller);
    }
    Ok(())
}

// Is the CPU the last to idle at a level? 102 for a state that is not sound, 103 for no CPU, 109 for a level above MAX.
#[tactic(auto, unfolding(model::specs::StateQuery::is_last_cpu_to_idle_at_power_level_of))]
pub fn is_last_cpu_to_idle_at_power_level(
    s: State,
    cpu: CpuNumber,
    level: PowerLevel,
) -> Result<bool, Refusal>
    ensures { result ≡ is_last_cpu_to_idle_at_power_level_of s cpu level }
{
    known(s, cpu)?;
    idle_query(s, cpu, level)
}

// Is every CPU but this one Off? 102 for a state that is not sound, 103 for no CPU, 104 for a CPU that is not On.
#[tactic(auto, unfolding(model::specs::StateQuery::is_last_cpu_of))]
pub fn is_last_cpu(s: State, cpu: CpuNumber) -> Result<bool, Refusal>
    ensures { result ≡ is_last_cpu_of s cpu }
{
    known(s, cpu)?;
    last_query(s, cpu)
}

// Is every CPU On? 102 for a state that is not sound.
#[tactic(auto, unfolding(model::specs::StateQuery::are_all_cpus_on_of))]
pub fn are_all_cpus_on(s: State) -> Result<bool, Refusal>
    ensures { result ≡ are_all_cpus_on_of s }
{
    if !sound(s) {
        return Err(Refusal::NotSound);
    }
    on_query(s)
}
