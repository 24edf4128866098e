// The domains above a CPU that comes up.
#![tactic(auto)]

ghost use Rattle.std.specs.Prelude.{◌≡◌};
ghost use Rattle.model.specs.Path.{set_running_of};

use model::board::Tree;
use model::sorts::{CpuNumber, DomainNumber, PowerLevel};
use model::state::Domains;
use paths::DomainRows;

// The domains with `set_running` along the path of a CPU, whose first domain is given.
pub fn running_domains(
    tree: Tree,
    domains: Domains,
    max: PowerLevel,
    first: DomainNumber,
    cpu: CpuNumber,
) -> Domains
    ensures { result ≡ set_running_of tree.parents max.0 first.0 cpu.0 domains }
{
    let mut made = domains;
    let mut rows = DomainRows {
        states: &mut made.states,
        requests: &mut made.requests,
        suspends: &mut made.suspends,
        copies: &mut made.copies,
    };
    rows.set_running(&tree.parents, max, first, cpu);
    made
}
