// What a call makes of a CPU's record, by value.
#![tactic(auto)]

ghost use Rattle.std.specs.Prelude.{◌≡◌};
ghost use Rattle.model.specs.Steps.{booted_of, finished_of, pended_of, suspended_of, turned_off};

use composite::is_down;
use cpu_lent::setters::{set_affinity_info, set_local_state};
use model::cpu::{AffinityInfo, CpuPowerNode, EntryPoint};
use model::states::{CompositeState, Platform};
use states::composite::cpu_level_state;
use states::platform::off;

// On: the target is OnPending and keeps the entry.
pub fn pended(node: CpuPowerNode, entry: EntryPoint) -> CpuPowerNode
    ensures { result ≡ pended_of node entry }
{
    let mut pending = CpuPowerNode {
        entry_point: Some(entry),
        ..node
    };
    set_affinity_info(&mut pending, AffinityInfo::OnPending);
    pending
}

// Off: the CPU state is OFF, the affinity Off.
pub fn turned_off(p: Platform, node: CpuPowerNode) -> CpuPowerNode
    ensures { result ≡ turned_off p node }
{
    let mut off_now = node;
    set_local_state(&mut off_now, off(p));
    set_affinity_info(&mut off_now, AffinityInfo::Off);
    off_now
}

// Suspend: the CPU state becomes the level-0 state; if that is power-down, the entry is kept.
pub fn suspended(
    p: Platform,
    node: CpuPowerNode,
    x: CompositeState,
    entry: EntryPoint,
) -> CpuPowerNode
    ensures { result ≡ suspended_of p node x entry }
{
    let state = cpu_level_state(x);
    let entry_point = if is_down(p, state) {
        Some(entry)
    } else {
        node.entry_point
    };
    let mut asleep = CpuPowerNode {
        entry_point,
        ..node
    };
    set_local_state(&mut asleep, state);
    asleep
}

// Finish: the CPU is RUN; a power-down suspend drops the entry.
pub fn finished(p: Platform, node: CpuPowerNode) -> CpuPowerNode
    ensures { result ≡ finished_of p node }
{
    let entry_point = if is_down(p, node.local_state) {
        None
    } else {
        node.entry_point
    };
    let mut awake = CpuPowerNode {
        entry_point,
        ..node
    };
    set_local_state(&mut awake, 0);
    awake
}

// Boot: the CPU is On and RUN, and its entry is cleared.
pub fn booted(node: CpuPowerNode) -> CpuPowerNode
    ensures { result ≡ booted_of node }
{
    let mut up = CpuPowerNode {
        entry_point: None,
        ..node
    };
    set_affinity_info(&mut up, AffinityInfo::On);
    set_local_state(&mut up, 0);
    up
}
