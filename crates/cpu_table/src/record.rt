// One CPU's record: read from the rows, and stored there.
ghost use Rattle.std.specs.Prelude.{◌≡◌};
ghost use Rattle.cpu_table.specs.CpuTable.{Lengths, SameCpus, address_in, affinity_byte, context_in, cpu_in, held_byte, kept_in, lent_cpus, stored_in, view_rows};

use crate::{CpuRows, CpuTable, CpuView};
use image::{affinity_in, entry_in};
use model::cpu::{AffinityInfo, CpuPowerNode, EntryPoint};
use model::limits::CPUS;
use model::sorts::{CpuNumber, DomainNumber};
use rows::cells::{at, at_or, put};

// The byte of an affinity.
pub(super) fn affinity_byte(a: AffinityInfo) -> u8
    ensures { result ≡ affinity_byte a }
{
    a as u8
}

// The byte that says whether an entry is held.
pub(super) fn held_byte(e: Option<EntryPoint>) -> u8
    ensures { result ≡ held_byte e }
{
    u8::from(e.is_some())
}

impl CpuView<'_> {
    // The record of a CPU; past the rows' end it is that of no CPU. The rows have a place for each CPU.
    pub fn cpu_in(self, cpu: CpuNumber) -> CpuPowerNode
        ensures value { result ≡ cpu_in (view_rows self.entry) cpu.0 }
        ensures lengths { Lengths (view_rows self.entry) }
    {
        let CpuView {
            firsts,
            affinities,
            locals,
            helds,
            addresses,
            contexts,
        } = self;
        let c = cpu.0 as usize;
        CpuPowerNode {
            parent: DomainNumber(at(firsts, c)),
            affinity_info: affinity_in(at(affinities, c)),
            local_state: at(locals, c),
            entry_point: entry_in(at(helds, c), at_or(addresses, c, 0), at_or(contexts, c, 0)),
        }
    }
}

// Stores an entry that is held; where none is, the rows are as they were.
fn keep_entry(
    addresses: &mut [u64; CPUS],
    contexts: &mut [u64; CPUS],
    c: usize,
    entry: Option<EntryPoint>,
)
    ensures addresses_after { addresses.new ≡ kept_in entry addresses.old c (address_in entry) }
    ensures contexts_after { contexts.new ≡ kept_in entry contexts.old c (context_in entry) }
{
    if let Some(e) = entry {
        put(addresses, c, e.address);
        put(contexts, c, e.context);
    }
}

impl CpuRows {
    // The rows to be read.
    pub fn view(&self) -> CpuView<'_>
        ensures { view_rows result ≡ self.now }
    {
        CpuView {
            firsts: &self.firsts,
            affinities: &self.affinities,
            locals: &self.locals,
            helds: &self.helds,
            addresses: &self.addresses,
            contexts: &self.contexts,
        }
    }
}

impl CpuTable<'_> {
    // The rows to be read.
    pub fn view(&self) -> CpuView<'_>
        ensures { view_rows result ≡ lent_cpus self.now }
    {
        CpuView {
            firsts: self.firsts,
            affinities: self.affinities,
            locals: self.locals,
            helds: self.helds,
            addresses: self.addresses,
            contexts: self.contexts,
        }
    }

    // The record of a CPU; past the rows' end it is that of no CPU. The rows have a place for each CPU.
    pub fn cpu_in(&self, cpu: CpuNumber) -> CpuPowerNode
        ensures value { result ≡ cpu_in (lent_cpus self.now) cpu.0 }
        ensures lengths { Lengths (lent_cpus self.now) }
    {
        self.view().cpu_in(cpu)
    }

    // Stores a CPU's record, but for its parent; past the rows' end nothing is stored.
    pub fn store_cpu(&mut self, cpu: CpuNumber, node: CpuPowerNode)
        ensures same { SameCpus self.old self.new }
        ensures rows { lent_cpus self.new ≡ stored_in (lent_cpus self.old) cpu.0 node }
    {
        let c = cpu.0 as usize;
        put(self.affinities, c, affinity_byte(node.affinity_info));
        put(self.locals, c, node.local_state);
        put(self.helds, c, held_byte(node.entry_point));
        keep_entry(self.addresses, self.contexts, c, node.entry_point);
    }
}
