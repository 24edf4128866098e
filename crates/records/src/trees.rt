// A tree that does not fit its topology, or a board that is not acceptable.
use crate::base::Base;
use crate::change::Change;
use crate::unsound;

fn run_rows() {
    unsound(
        "the parent of domain 2 is domain 1",
        Base::Fresh,
        &[Change::Parent(2, 1)],
    );
    unsound(
        "the CPUs of domain 2 start at 3",
        Base::Fresh,
        &[Change::CpuStart(2, 3)],
    );
    unsound(
        "the CPUs of domain 2 end before 3",
        Base::Fresh,
        &[Change::CpuEnd(2, 3)],
    );
    unsound(
        "the children of domain 0 start at 2",
        Base::Fresh,
        &[Change::ChildStart(0, 2)],
    );
    unsound(
        "the children of domain 0 end before 2",
        Base::Fresh,
        &[Change::ChildEnd(0, 2)],
    );
}

fn run_counts() {
    unsound(
        "the tree has 2 domains",
        Base::Fresh,
        &[Change::DomainCount(2)],
    );
    unsound(
        "the tree has 4 domains",
        Base::Fresh,
        &[Change::DomainCount(4)],
    );
    unsound(
        "the tree has 255 domains",
        Base::Fresh,
        &[Change::DomainCount(255)],
    );
    unsound("the tree has 3 CPUs", Base::Fresh, &[Change::CpuCount(3)]);
    unsound("the tree has 5 CPUs", Base::Fresh, &[Change::CpuCount(5)]);
}

fn run_board() {
    unsound(
        "CPU 1 is under domain 2",
        Base::Fresh,
        &[Change::CpuParent(1, 2)],
    );
    unsound(
        "the topology is 1,2,2,1",
        Base::Fresh,
        &[Change::Topology(3, 1)],
    );
    unsound(
        "the topology is 1,2,2,0",
        Base::Fresh,
        &[Change::Topology(3, 0)],
    );
    unsound("the primary is CPU 4", Base::Fresh, &[Change::Primary(4)]);
    unsound("MAX is 3", Base::Fresh, &[Change::Max(3)]);
    unsound("there is 1 state", Base::Fresh, &[Change::States(1)]);
}

fn run_unused() {
    unsound(
        "a parent where there is no domain",
        Base::Fresh,
        &[Change::Parent(3, 1)],
    );
    unsound(
        "a CPU span where there is no domain",
        Base::Fresh,
        &[Change::CpuEnd(15, 1)],
    );
    unsound(
        "a child span where there is no domain",
        Base::Fresh,
        &[Change::ChildEnd(3, 1)],
    );
}

pub(super) fn run() {
    run_rows();
    run_counts();
    run_board();
    run_unused();
}
