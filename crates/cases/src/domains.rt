// A power domain's record: what it takes and refuses, and the minimum.
use lines::say;
use model::code::{Refusal, number};
use model::node::{NonCpuPowerNode, Span};
use model::sorts::{CpuNumber, DomainNumber};
use node::assign::{assign_cpu, assign_non_cpu};
use node::setters::{new, set_minimal_allowed_state, set_requested_power_state};
use rows::cells::at;

// A domain over CPUs 4, 5 and 6 that has domains 1 and 2 below it; OFF is 3.
pub(super) fn domain() -> NonCpuPowerNode {
    let mut node = new(None, 3);
    let _ = assign_cpu(&mut node, CpuNumber(4), 3);
    let _ = assign_cpu(&mut node, CpuNumber(5), 3);
    let _ = assign_cpu(&mut node, CpuNumber(6), 3);
    let _ = assign_non_cpu(&mut node, DomainNumber(1), 3);
    let _ = assign_non_cpu(&mut node, DomainNumber(2), 3);
    node
}

// The domain with these requests of its CPUs.
pub(super) fn asked(four: u8, five: u8, six: u8) -> NonCpuPowerNode {
    let mut node = domain();
    let _ = set_requested_power_state(&mut node, CpuNumber(4), four);
    let _ = set_requested_power_state(&mut node, CpuNumber(5), five);
    let _ = set_requested_power_state(&mut node, CpuNumber(6), six);
    node
}

// The domain whose CPU span ends past the table.
fn past() -> NonCpuPowerNode {
    NonCpuPowerNode {
        cpu_range: Span { start: 4, end: 17 },
        ..domain()
    }
}

// Does the domain take this state as the minimum?
fn takes(node: NonCpuPowerNode, state: u8) -> bool {
    let mut after = node;
    set_minimal_allowed_state(&mut after, 3).is_ok() && after.local_state == state
}

// Is this answer 109, with the state and the request of CPU 5 as they were in the domain?
fn unchanged(answer: Result<(), Refusal>, node: &NonCpuPowerNode) -> bool {
    number(answer) == 109 && node.local_state == 3 && at(&node.requested_states, 5) == 3
}

fn run_assigned() {
    let cpu = |node: NonCpuPowerNode, n: u8| {
        let mut after = node;
        assign_cpu(&mut after, CpuNumber(n), 3)
    };
    let empty = new(None, 3);
    let mut last = empty;
    let _ = assign_cpu(&mut last, CpuNumber(15), 3);
    let mut parent = domain();
    for (statement, answer, wanted) in [
        ("span 4..7 takes CPU 7", cpu(domain(), 7), 0),
        ("span 4..7 and CPU 8 is 109", cpu(domain(), 8), 109),
        ("span 4..7 and CPU 6 is 109", cpu(domain(), 6), 109),
        ("span 15..16 and CPU 16 is 109", cpu(last, 16), 109),
        ("an empty span and CPU 16 is 109", cpu(empty, 16), 109),
        (
            "children 1..3 and domain 4 is 109",
            assign_non_cpu(&mut parent, DomainNumber(4), 3),
            109,
        ),
    ] {
        say(statement, number(answer) == wanted);
    }
}

fn run_minimum() {
    say("requests 3,2,3: minimum 2", takes(asked(3, 2, 3), 2));
    say("requests 3,2,0: minimum 0", takes(asked(3, 2, 0), 0));
    say("no CPU: minimum OFF", takes(new(None, 3), 3));
}

fn run_refused() {
    let mut within = domain();
    let request = set_requested_power_state(&mut within, CpuNumber(7), 0);
    say("request of CPU 7 is 109", unchanged(request, &within));
    let mut asked = past();
    let request = set_requested_power_state(&mut asked, CpuNumber(5), 0);
    say(
        "request of CPU 5 in a span past its table is 109",
        unchanged(request, &asked),
    );
    let mut taken = past();
    let minimum = set_minimal_allowed_state(&mut taken, 0);
    say(
        "minimum of a span past its table is 109",
        unchanged(minimum, &taken),
    );
}

pub(super) fn run() {
    run_assigned();
    run_minimum();
    run_refused();
}
