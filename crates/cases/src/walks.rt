// The last-CPU and the all-on test, at the last CPU of a table and past its end.
use cpu::{new, set_affinity_info};
use cpu_rows::with_cpu_record;
use cpu_walk::{all_on_in, others_off_in};
use lines::say;
use model::cpu::{AffinityInfo, CpuPowerNode};
use model::limits::CPUS;
use model::sorts::{CpuNumber, DomainNumber};

// Sixteen CPUs, of which the last has an affinity of its own.
fn table(all: AffinityInfo, last: AffinityInfo) -> [CpuPowerNode; CPUS] {
    let node = set_affinity_info(new(DomainNumber(1), 3), all);
    with_cpu_record([node; CPUS], CpuNumber(15), set_affinity_info(node, last))
}

// All CPUs are Off but for the last, which is OnPending: are all but one of the first so many Off?
fn others_off(count: u8, cpu: u8) -> bool {
    others_off_in(
        table(AffinityInfo::Off, AffinityInfo::OnPending),
        count,
        cpu,
    )
}

// All CPUs are On but for the last, which is Off: are the first so many On?
fn all_on(count: u8) -> bool {
    all_on_in(table(AffinityInfo::On, AffinityInfo::Off), count)
}

pub(super) fn run() {
    say(
        "CPU 15 is OnPending, so not all others are Off",
        others_off(15, 0) && !others_off(16, 0),
    );
    say(
        "it may ask itself; a seventeenth CPU is not Off",
        others_off(16, 15) && !others_off(17, 15),
    );
    say(
        "CPU 15 is Off, so not all are On",
        all_on(15) && !all_on(16),
    );
}
