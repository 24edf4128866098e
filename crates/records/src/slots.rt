// A slot that is not used and not 0.
use crate::base::Base;
use crate::change::Change;
use crate::unsound;
use model::cpu::AffinityInfo;

fn run_cpus() {
    unsound(
        "a parent where CPU 4 would be",
        Base::Fresh,
        &[Change::CpuParent(4, 1)],
    );
    unsound(
        "affinity Off where CPU 4 would be",
        Base::Fresh,
        &[Change::Affinity(4, AffinityInfo::Off)],
    );
    unsound(
        "state 1 where CPU 4 would be",
        Base::Fresh,
        &[Change::CpuState(4, 1)],
    );
    unsound(
        "an entry held where CPU 15 would be",
        Base::Fresh,
        &[Change::EntryHeld(15, true)],
    );
}

fn run_requests() {
    unsound(
        "a request where CPU 4 would be",
        Base::Fresh,
        &[Change::Request(1, 4, 1)],
    );
    unsound(
        "a request of CPU 0 at level 3, above MAX",
        Base::Fresh,
        &[Change::Request(3, 0, 1)],
    );
    unsound(
        "a request in the last slot, CPU 15 at level 3",
        Base::Fresh,
        &[Change::Request(3, 15, 3)],
    );
}

fn run_suspends() {
    unsound(
        "FFh as the suspend state where CPU 4 would be",
        Base::Fresh,
        &[Change::Suspend(1, 4, 255)],
    );
    unsound(
        "FFh as the suspend state of CPU 0 at level 3, above MAX",
        Base::Fresh,
        &[Change::Suspend(3, 0, 255)],
    );
    unsound(
        "a suspend state in the last slot, CPU 15 at level 3",
        Base::Fresh,
        &[Change::Suspend(3, 15, 1)],
    );
}

fn run_domains() {
    unsound(
        "a topology entry past the last",
        Base::Fresh,
        &[Change::Topology(4, 1)],
    );
    unsound(
        "a topology entry in the last slot",
        Base::Fresh,
        &[Change::Topology(16, 1)],
    );
    unsound(
        "a state where domain 3 would be",
        Base::Fresh,
        &[Change::State(3, 3)],
    );
    unsound(
        "a copy where domain 15 would be",
        Base::Fresh,
        &[Change::Copy(15, 3)],
    );
}

pub(super) fn run() {
    run_cpus();
    run_requests();
    run_suspends();
    run_domains();
}
