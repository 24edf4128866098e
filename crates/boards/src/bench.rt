// The fresh state of the bench board: MAX 2, four states, d 2, primary 0, topology 1,2,2,2. RUN is 0 and OFF is 3.
use crate::topologies::platform;
use cpu_rows::cpu_in;
use fresh::fresh;
use levels::at_level;
use lines::say;
use model::cpu::AffinityInfo;
use model::sorts::{CpuNumber, PowerLevel};
use model::state::{State, SuspendMode};
use rows::cells::at;
use soundness::sound;

// Each program builds its own bench board: the programs share no crate that it would fit, and each prints its own.
fn bench() -> State {
    fresh(platform(2, 4, 2), CpuNumber(0), &[1, 2, 2, 2]).state
}

// Has the CPU this affinity and state, and holds it no entry?
fn cpu_is(s: State, cpu: u8, affinity: AffinityInfo, state: u8) -> bool {
    let c = cpu_in(s.cpus, CpuNumber(cpu));
    c.affinity_info == affinity && c.local_state == state && c.entry_point.is_none()
}

fn run_cpus(s: State) {
    say("fresh: the state is sound", sound(s));
    say(
        "fresh: the mode is platform-coordinated",
        s.mode == SuspendMode::PlatformCoordinated,
    );
    say(
        "fresh: CPU 0 is On and RUN, and holds no entry",
        cpu_is(s, 0, AffinityInfo::On, 0),
    );
    for cpu in 1..4 {
        say(
            format_args!("fresh: CPU {cpu} is Off and OFF, and holds no entry"),
            cpu_is(s, cpu, AffinityInfo::Off, 3),
        );
    }
}

fn run_domains(s: State) {
    let state = |domain: usize| at(&s.domains.states, domain);
    let copy = |domain: usize| at(&s.domains.copies, domain);
    say("fresh: domain 0, the top, is RUN", state(0) == 0);
    say("fresh: domain 1, over CPU 0, is RUN", state(1) == 0);
    say("fresh: domain 2 is OFF", state(2) == 3);
    say(
        "fresh: domain 0, the top, has no copy, which is 0",
        copy(0) == 0,
    );
    say("fresh: the copy of domain 1 is RUN", copy(1) == 0);
    say("fresh: the copy of domain 2 is OFF", copy(2) == 3);
}

// Has the CPU this byte at levels 1 and 2, and 0 at level 3, which is above MAX?
fn levels_are(row: &[u8], cpu: u8, v: u8) -> bool {
    let level = |level: u8| at_level(row, PowerLevel(level), CpuNumber(cpu));
    level(1) == v && level(2) == v && level(3) == 0
}

fn run_requests(s: State) {
    let asks = |cpu: u8, v: u8| levels_are(&s.domains.requests, cpu, v);
    say("fresh: CPU 0 asks for RUN at levels 1 and 2", asks(0, 0));
    for cpu in [1, 3] {
        say(
            format_args!(
                "fresh: CPU {cpu} asks for OFF at levels 1 and 2, and 0 stands at level 3"
            ),
            asks(cpu, 3),
        );
    }
}

fn run_suspends(s: State) {
    let suspend = |cpu: u8, v: u8| levels_are(&s.domains.suspends, cpu, v);
    for cpu in [0, 1] {
        say(
            format_args!(
                "fresh: CPU {cpu} has suspend state FFh at levels 1 and 2, and 0 at level 3"
            ),
            suspend(cpu, 255),
        );
    }
    say(
        "fresh: where CPU 4 would be the suspend states are 0",
        suspend(4, 0),
    );
}

pub(super) fn run() {
    let s = bench();
    run_cpus(s);
    run_domains(s);
    run_requests(s);
    run_suspends(s);
}
