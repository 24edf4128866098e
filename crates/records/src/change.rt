// A change of a state record: one thing in it is another. Domains and CPUs are named by their numbers, and what has no place is dropped.
use cpu_rows::{cpu_in, with_cpu_record};
use levels::place;
use model::cpu::{AffinityInfo, CpuPowerNode, EntryPoint};
use model::sorts::{CpuNumber, DomainNumber, PowerLevel};
use model::state::State;
use rows::cells::put;

#[derive(Clone, Copy)]
pub(super) enum Change {
    // the board
    Max(u8),
    States(u8),
    Primary(u8),
    // an entry's place
    Topology(u8, u8),
    // the tree
    DomainCount(u8),
    CpuCount(u8),
    Parent(u8, u8),
    CpuStart(u8, u8),
    CpuEnd(u8, u8),
    ChildStart(u8, u8),
    ChildEnd(u8, u8),
    // a CPU's record
    CpuParent(u8, u8),
    Affinity(u8, AffinityInfo),
    CpuState(u8, u8),
    EntryHeld(u8, bool),
    // the domains
    State(u8, u8),
    Copy(u8, u8),
    // a level, and a CPU's number
    Request(u8, u8, u8),
    Suspend(u8, u8, u8),
}

fn entry(held: bool) -> Option<EntryPoint> {
    held.then_some(EntryPoint {
        address: 4096,
        context: 7,
    })
}

// The place of a level and a CPU.
fn at(level: u8, cpu: u8) -> usize {
    place(PowerLevel(level), CpuNumber(cpu))
}

impl Change {
    // Makes the change in a CPU's record, where it is one of it.
    fn of_cpu(self, cpu: CpuPowerNode) -> CpuPowerNode {
        match self {
            Change::CpuParent(_, v) => CpuPowerNode {
                parent: DomainNumber(v),
                ..cpu
            },
            Change::Affinity(_, affinity_info) => CpuPowerNode {
                affinity_info,
                ..cpu
            },
            Change::CpuState(_, local_state) => CpuPowerNode { local_state, ..cpu },
            Change::EntryHeld(_, held) => CpuPowerNode {
                entry_point: entry(held),
                ..cpu
            },
            _ => cpu,
        }
    }

    fn of_state(self, s: State) -> State {
        let mut s = s;
        match self {
            Change::Max(v) => s.board.platform.max = PowerLevel(v),
            Change::States(v) => s.board.platform.states = v,
            Change::Primary(v) => s.board.primary = CpuNumber(v),
            Change::Topology(i, v) => put(&mut s.board.topology, i as usize, v),
            Change::DomainCount(v) => s.tree.domain_count = v,
            Change::CpuCount(v) => s.tree.cpu_count = v,
            Change::Parent(i, v) => put(&mut s.tree.parents, i as usize, v),
            Change::CpuStart(i, v) => put(&mut s.tree.cpu_starts, i as usize, v),
            Change::CpuEnd(i, v) => put(&mut s.tree.cpu_ends, i as usize, v),
            Change::ChildStart(i, v) => put(&mut s.tree.child_starts, i as usize, v),
            Change::ChildEnd(i, v) => put(&mut s.tree.child_ends, i as usize, v),
            Change::CpuParent(i, _)
            | Change::Affinity(i, _)
            | Change::CpuState(i, _)
            | Change::EntryHeld(i, _) => {
                let node = self.of_cpu(cpu_in(s.cpus, CpuNumber(i)));
                s.cpus = with_cpu_record(s.cpus, CpuNumber(i), node);
            }
            Change::State(i, v) => put(&mut s.domains.states, i as usize, v),
            Change::Copy(i, v) => put(&mut s.domains.copies, i as usize, v),
            Change::Request(level, i, v) => put(&mut s.domains.requests, at(level, i), v),
            Change::Suspend(level, i, v) => put(&mut s.domains.suspends, at(level, i), v),
        }
        s
    }
}

// The record with these changes, one after the other.
pub(super) fn with(s: State, changes: &[Change]) -> State {
    changes.iter().fold(s, |s, change| change.of_state(s))
}
