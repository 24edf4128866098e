// The tree of topology 1,2,2,2,3,3,3,4 at MAX 3, worked out by hand. Domain 0 is the top; below it are domains 1 and 2; below domain 1
// are domains 3 and 4, below domain 2 domains 5 and 6; these four have 3, 3, 3 and 4 CPUs.
use crate::topologies::platform;
use lines::say;
use model::board::TreeAnswer;
use model::node::Span;
use model::sorts::{CpuNumber, DomainNumber};
use rows::cells::at;
use state_query::nodes::{child_span_at, cpu_span_at};
use topology::power_domain_tree;

fn made() -> TreeAnswer {
    power_domain_tree(platform(3, 4, 2), CpuNumber(0), &[1, 2, 2, 2, 3, 3, 3, 4])
}

fn under(domain: u8, start: u8, end: u8) -> bool {
    cpu_span_at(made().tree, DomainNumber(domain)) == Span { start, end }
}

fn below(domain: u8, start: u8, end: u8) -> bool {
    child_span_at(made().tree, DomainNumber(domain)) == Span { start, end }
}

fn parent(domain: u8) -> u8 {
    at(&made().tree.parents, domain as usize)
}

fn over(cpu: u8) -> u8 {
    at(&made().cpu_parents, cpu as usize)
}

// Says something of this tree.
fn of_tree(statement: &str, holds: bool) {
    say(format_args!("1,2,2,2,3,3,3,4 at MAX 3: {statement}"), holds);
}

fn run_cpus() {
    of_tree("domain 0, the top, is over CPUs 0 to 12", under(0, 0, 13));
    of_tree("domain 1 is over CPUs 0 to 5", under(1, 0, 6));
    of_tree("domain 2 is over CPUs 6 to 12", under(2, 6, 13));
}

fn run_level_1() {
    of_tree("domain 3 is over CPUs 0 to 2", under(3, 0, 3));
    of_tree("domain 4 is over CPUs 3 to 5", under(4, 3, 6));
    of_tree("domain 6 is over CPUs 9 to 12", under(6, 9, 13));
}

fn run_domains() {
    of_tree(
        "directly below domain 0 are domains 1 and 2",
        below(0, 1, 3),
    );
    of_tree(
        "directly below domain 1 are domains 3 and 4",
        below(1, 3, 5),
    );
    of_tree(
        "directly below domain 2 are domains 5 and 6",
        below(2, 5, 7),
    );
    of_tree(
        "directly below domain 3 is no domain, only CPUs",
        below(3, 0, 0),
    );
}

fn run_parents() {
    of_tree("domain 0 has no parent, which is FFh", parent(0) == 255);
    of_tree("the parent of domain 2 is domain 0", parent(2) == 0);
    of_tree("the parent of domain 4 is domain 1", parent(4) == 1);
    of_tree("the parent of domain 5 is domain 2", parent(5) == 2);
}

fn run_over() {
    of_tree("the level-1 domain over CPU 2 is domain 3", over(2) == 3);
    of_tree("the level-1 domain over CPU 3 is domain 4", over(3) == 4);
    of_tree("the level-1 domain over CPU 8 is domain 5", over(8) == 5);
    of_tree("the level-1 domain over CPU 12 is domain 6", over(12) == 6);
}

pub(super) fn run() {
    run_cpus();
    run_level_1();
    run_domains();
    run_parents();
    run_over();
}
