// Tests over a row of CPU records, which is read where it lies: the last-CPU and the all-on test.
// A count and no slice: past the table's end it counts CPUs that there are not, as `others_off_in` says.
#![tactic(auto)]

ghost use Rattle.std.specs.Prelude.{◌≡◌};
ghost use Rattle.model.specs.StateQuery.{all_on_in, others_off_in};

use crate::row::{all_on, others_off};
use model::cpu::CpuPowerNode;
use model::limits::CPUS;

pub mod row;

// Is every CPU of the first so many of a table Off, but for one?
pub fn others_off_in(cpus: [CpuPowerNode; CPUS], count: u8, cpu: u8) -> bool
    ensures { result ≡ others_off_in cpus count cpu }
{
    others_off(&cpus, count as usize, cpu as usize)
}

// Is every CPU of the first so many of a table On?
pub fn all_on_in(cpus: [CpuPowerNode; CPUS], count: u8) -> bool
    ensures { result ≡ all_on_in cpus count }
{
    all_on(&cpus, count as usize)
}
