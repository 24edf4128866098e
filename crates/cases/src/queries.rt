// What a power domain's record says of the CPUs other than one.
use crate::domains::{asked, domain};
use lines::say;
use model::code::{Refusal, number};
use model::node::NonCpuPowerNode;
use model::sorts::{CpuNumber, DomainNumber};
use node::assign::assign_cpu;
use node::setters::{new, set_non_cpu_state, set_suspend_state};
use node_query::{get_osi_minimal_allowed_state_without_core, is_last_cpu_to_idle};

// The query without this CPU.
fn without(node: NonCpuPowerNode, cpu: u8, child: Option<DomainNumber>) -> Result<u8, Refusal> {
    get_osi_minimal_allowed_state_without_core(node, CpuNumber(cpu), child, 3)
}

// Is the query without CPU 4 answered with this number and state? Beside a refusal there is no state, and RUN is wanted.
fn is(node: NonCpuPowerNode, child: Option<DomainNumber>, wanted: i32, state: u8) -> bool {
    match without(node, 4, child) {
        Ok(found) => wanted == 0 && found == state,
        Err(refusal) => number(Err(refusal)) == wanted && state == 0,
    }
}

// Is the query without this CPU answered with 109?
fn outside(cpu: u8) -> bool {
    without(domain(), cpu, None).is_err_and(|refusal| number(Err(refusal)) == 109)
}

// Is CPU 4 the last to idle?
fn last(node: NonCpuPowerNode) -> bool {
    is_last_cpu_to_idle(node, CpuNumber(4), None, 3) == Ok(true)
}

fn given(child: u8) -> Option<DomainNumber> {
    Some(DomainNumber(child))
}

// The domain with a suspend state of a CPU.
fn suspended(node: NonCpuPowerNode, cpu: u8, state: u8) -> NonCpuPowerNode {
    let mut after = node;
    let _ = set_suspend_state(&mut after, CpuNumber(cpu), state);
    after
}

// The domain with domain 2 at RUN.
fn child_runs() -> NonCpuPowerNode {
    let mut node = domain();
    let _ = set_non_cpu_state(&mut node, DomainNumber(2), 0);
    node
}

fn run_states() {
    let mut alone = new(None, 3);
    let _ = assign_cpu(&mut alone, CpuNumber(4), 3);
    for (statement, node, child, number, state) in [
        (
            "requests 0,2,3 without CPU 4: 2",
            asked(0, 2, 3),
            None,
            0,
            2,
        ),
        (
            "requests 0,0,3 without CPU 4: 0",
            asked(0, 0, 3),
            None,
            0,
            0,
        ),
        ("one CPU without itself: OFF", alone, None, 0, 3),
        (
            "suspend state 1 beside RUN: 1",
            suspended(asked(0, 0, 3), 5, 1),
            None,
            0,
            1,
        ),
        (
            "suspend state 1 beside 2: 111",
            suspended(asked(0, 2, 3), 5, 1),
            None,
            111,
            0,
        ),
        (
            "the same of the CPU left out: 2",
            suspended(asked(3, 2, 3), 4, 1),
            None,
            0,
            2,
        ),
        (
            "child 2 at RUN, child 1 given: 0",
            child_runs(),
            given(1),
            0,
            0,
        ),
        ("child 2 at RUN and given: 3", child_runs(), given(2), 0, 3),
        ("child 2 at RUN, none given: 3", child_runs(), None, 0, 3),
    ] {
        say(statement, is(node, child, number, state));
    }
}

fn run_outside() {
    say("without CPU 3 is 109", outside(3));
    say("without CPU 7 is 109", outside(7));
    say(
        "child 3 is 109, before 111",
        is(suspended(asked(0, 2, 3), 5, 1), given(3), 109, 0),
    );
}

fn run_last() {
    say("CPU 4 is the last to idle", last(asked(0, 1, 3)));
    say(
        "CPU 4 is not the last, for CPU 6 runs",
        !last(asked(0, 1, 0)),
    );
}

pub(super) fn run() {
    run_states();
    run_outside();
    run_last();
}
