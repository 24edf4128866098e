// A whole table of records: taken apart into rows, and made of them.
ghost use Rattle.std.specs.Prelude.{◌≡◌};
ghost use Rattle.cpu_table.specs.CpuTable.{address_in, context_in, cpus_in, rows_of, view_rows};

use crate::record::{affinity_byte, held_byte};
use crate::{CpuRows, CpuView};
use cpu_rows::no_cpu;
use model::cpu::{CpuPowerNode, EntryPoint};
use model::limits::CPUS;
use model::sorts::CpuNumber;

// The address of an entry, 0 where none is held.
fn address_in(e: Option<EntryPoint>) -> u64
    ensures { result ≡ address_in e }
{
    e.map_or(0, |point| point.address)
}

// Its context.
fn context_in(e: Option<EntryPoint>) -> u64
    ensures { result ≡ context_in e }
{
    e.map_or(0, |point| point.context)
}

// The rows of a table of records.
pub fn rows_of(cpus: [CpuPowerNode; CPUS]) -> CpuRows
    ensures { result ≡ rows_of cpus }
{
    let mut firsts = [0; CPUS];
    let mut affinities = [0; CPUS];
    let mut locals = [0; CPUS];
    let mut helds = [0; CPUS];
    let mut addresses = [0; CPUS];
    let mut contexts = [0; CPUS];
    // by number: lent to an iterator, the table would be copied
    for c in 0..CPUS {
        let node = cpus[c];
        firsts[c] = node.parent.0;
        affinities[c] = affinity_byte(node.affinity_info);
        locals[c] = node.local_state;
        helds[c] = held_byte(node.entry_point);
        addresses[c] = address_in(node.entry_point);
        contexts[c] = context_in(node.entry_point);
    }
    CpuRows {
        firsts,
        affinities,
        locals,
        helds,
        addresses,
        contexts,
    }
}

impl CpuView<'_> {
    // The records that rows stand for.
    pub fn table_of(self) -> [CpuPowerNode; CPUS]
        ensures { result ≡ cpus_in (view_rows self.entry) }
    {
        let nothing = no_cpu();
        let mut cpus = [nothing; CPUS];
        for (c, node) in cpus.iter_mut().enumerate() {
            *node = self.cpu_in(CpuNumber(c as u8));
        }
        cpus
    }
}
