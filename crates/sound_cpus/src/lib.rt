// The part of the test of a state record that looks at CPUs.
#![tactic(auto)]

ghost use Rattle.std.specs.Prelude.{cond, ◌≡◌, eqb, leb, ltb, suc, ◌<◌};
ghost use Rattle.model.specs.declared.cpu.AffinityInfo.TheVariants as affinity;
ghost use Rattle.model.specs.Below.{every};
ghost use Rattle.model.specs.Composite.{state_at};
ghost use Rattle.model.specs.Limits.{cpu_limit};
ghost use Rattle.model.specs.Node.{no_suspend_state};
ghost use Rattle.model.specs.SoundTest.{asksb, cpu_slot_isb, cpu_slotb, cpu_unusedb, cpu_usedb, levels_areb, suspends_areb};
ghost use Rattle.model.specs.State.{asked_in};
ghost use Rattle.model.specs.Table.{at_level};

use composite::entry_due;
use cpu::{is_held, is_on};
use levels::at_level;
use model::cpu::{AffinityInfo, CpuPowerNode};
use model::limits::CPUS;
use model::node::NO_SUSPEND_STATE;
use model::sorts::{CpuNumber, PowerLevel};
use model::state::Domains;
use model::states::{CompositeState, Platform};
use states::composite::{state_at, states_in_range};
use states::platform::off;
use states::request::is_valid_suspend_request;

// Has a level this state, or 0 above MAX? What it shares with other tests of a level is the `if`.
fn level_is(p: Platform, c: CompositeState, level: PowerLevel, state: u8) -> bool
    ensures { result ≡ eqb (state_at c level.0) (cond (leb level.0 p.max.0) state 0) }
{
    let s = state_at(c, level);
    if level.0 <= p.max.0 {
        return s == state;
    }
    s == 0
}

// Have the levels up to MAX this state, and those above it 0? The levels are a constant: the four lines are what `every` unfolds to.
#[tactic(auto, unfolding(model::specs::Below::every))]
fn levels_are(p: Platform, c: CompositeState, state: u8) -> bool
    ensures { result ≡ levels_areb p c state }
{
    level_is(p, c, PowerLevel(0), state)
        & level_is(p, c, PowerLevel(1), state)
        & level_is(p, c, PowerLevel(2), state)
        & level_is(p, c, PowerLevel(3), state)
}

// Does a running CPU ask for RUN, a suspended one for what is a valid request?
fn on_asks(p: Platform, asked: CompositeState) -> bool
    ensures { result ≡ asksb p affinity.On asked }
{
    if asked.level0 == 0 {
        return levels_are(p, asked, 0);
    }
    is_valid_suspend_request(p, asked)
}

// Does a CPU ask for what its affinity allows?
fn asks(p: Platform, a: AffinityInfo, asked: CompositeState) -> bool
    ensures { result ≡ asksb p a asked }
{
    match a {
        AffinityInfo::On => on_asks(p, asked),
        AffinityInfo::Off => levels_are(p, asked, off(p)),
        AffinityInfo::OnPending => levels_are(p, asked, off(p)),
    }
}

// Is the suspend state of a level none up to level n, and 0 above?
fn suspend_is(suspends: &[u8], below: u8, n: u8, cpu: CpuNumber) -> bool
    requires { below < 255 }
    ensures { result ≡ eqb (at_level suspends.now (suc below) cpu.0) (cond (ltb below n) no_suspend_state 0) }
{
    let s = at_level(suspends, PowerLevel(below + 1), cpu);
    if below < n {
        return s == NO_SUSPEND_STATE;
    }
    s == 0
}

// Has a CPU no suspend state up to level n, and 0 above? The three lines are what `every` unfolds to, as in `levels_are`.
#[tactic(auto, unfolding(model::specs::Below::every))]
fn suspends_are(suspends: &[u8], n: u8, cpu: CpuNumber) -> bool
    ensures { result ≡ suspends_areb suspends.now n cpu.0 }
{
    suspend_is(suspends, 0, n, cpu)
        & suspend_is(suspends, 1, n, cpu)
        & suspend_is(suspends, 2, n, cpu)
}

// Is the record of a CPU under this domain, with what it asks for, as it must be?
fn cpu_used(p: Platform, c: CpuPowerNode, parent: u8, asked: CompositeState) -> bool
    ensures { result ≡ cpu_usedb p c parent asked }
{
    let due = entry_due(p, c.affinity_info, c.local_state);
    (c.parent.0 == parent)
        & states_in_range(p, asked)
        & asks(p, c.affinity_info, asked)
        & (is_held(c.entry_point) == due)
}

// Are the record and the requests 0 where there is no CPU?
fn cpu_unused(p: Platform, c: CpuPowerNode, asked: CompositeState) -> bool
    ensures { result ≡ cpu_unusedb p c asked }
{
    (c.parent.0 == 0) & is_on(c.affinity_info) & !is_held(c.entry_point) & levels_are(p, asked, 0)
}

// What a CPU asks for: its state and, above it, its requests.
fn asked_in(requests: &[u8], c: CpuPowerNode, cpu: CpuNumber) -> CompositeState
    ensures { result ≡ asked_in requests.now c cpu.0 }
{
    CompositeState {
        level0: c.local_state,
        level1: at_level(requests, PowerLevel(1), cpu),
        level2: at_level(requests, PowerLevel(2), cpu),
        level3: at_level(requests, PowerLevel(3), cpu),
    }
}

// Is the slot of a CPU as it must be, where there is one and where there is none?
#[tactic(auto, unfolding(model::specs::SoundTest::cpu_slot_isb))]
fn cpu_slot(
    used: bool,
    p: Platform,
    c: CpuPowerNode,
    parent: u8,
    asked: CompositeState,
    suspends: &[u8],
    cpu: CpuNumber,
) -> bool
    ensures { result ≡ cpu_slot_isb used p c parent asked suspends.now cpu.0 }
{
    if used {
        return cpu_used(p, c, parent, asked) & suspends_are(suspends, p.max.0, cpu);
    }
    cpu_unused(p, c, asked) & suspends_are(suspends, 0, cpu)
}

// Is every CPU's slot as it must be? The count is of a state that need not be sound, and may be past the table's end.
#[tactic(auto, unfolding(model::specs::Below::every, model::specs::SoundTest::cpu_slotb))]
pub fn cpus_sound(
    p: Platform,
    count: u8,
    cpus: [CpuPowerNode; CPUS],
    parents: [u8; CPUS],
    domains: Domains,
) -> bool
    ensures { result ≡ every cpu_limit (cpu_slotb p count cpus parents domains) }
{
    let n = count as usize;
    let mut sound = true;
    for (i, c) in cpus.iter().enumerate() {
        let parent = parents[i];
        let cpu = CpuNumber(i as u8);
        let asked = asked_in(&domains.requests, *c, cpu);
        sound = sound & cpu_slot(i < n, p, *c, parent, asked, &domains.suspends, cpu);
    }
    sound
}
