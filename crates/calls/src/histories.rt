// Short histories, each from the fresh state.
use crate::bench::{entry, next, start, states};
use crate::write::say;
use model::sorts::CpuNumber;
use model::state::SuspendMode;
use psci::Psci;

// CPU 1 is up.
fn up() -> Psci {
    let a = start().cpu_on(CpuNumber(0), CpuNumber(1), entry(), true, 0);
    say("on of CPU 1 gives 0", a, 0, states(0, 0, 0));
    let b = next(a).handle_cpu_boot(CpuNumber(1));
    say("its boot hands 3,0,0", b, 0, states(3, 0, 0));
    next(b)
}

pub(super) fn sleep() {
    let a = up().cpu_suspend_start(CpuNumber(0), false, entry(), states(3, 3, 3));
    say(
        "CPU 0 suspends 3,3,3 and hands 3,0,0",
        a,
        0,
        states(3, 0, 0),
    );
    let b = next(a).cpu_suspend_start(CpuNumber(1), false, entry(), states(2, 2, 1));
    say(
        "CPU 1 suspends 2,2,1 and hands 2,2,1",
        b,
        0,
        states(2, 2, 1),
    );
}

pub(super) fn wake() {
    let a = start().cpu_suspend_start(CpuNumber(0), false, entry(), states(1, 1, 1));
    say(
        "CPU 0 suspends 1,1,1 and hands 1,1,1",
        a,
        0,
        states(1, 1, 1),
    );
    let b = next(a).cpu_suspend_finish(CpuNumber(0));
    say("its finish hands 1,1,1", b, 0, states(1, 1, 1));
    let c = next(b).cpu_off(CpuNumber(0), 0);
    say("CPU 0 turns off and hands 3,3,3", c, 0, states(3, 3, 3));
}

pub(super) fn refuse() {
    let a = start().cpu_on(CpuNumber(0), CpuNumber(1), entry(), true, 254);
    say(
        "on of CPU 1 with answer FEh gives -2",
        a,
        -2,
        states(0, 0, 0),
    );
    let b = next(a).cpu_suspend_start(CpuNumber(0), false, entry(), states(2, 0, 1));
    say("then suspend 2,0,1 gives -2", b, -2, states(0, 0, 0));
    let c = next(b).cpu_suspend_start(CpuNumber(0), true, entry(), states(2, 3, 0));
    say(
        "suspend 2,3,0 with an interrupt pending gives 0",
        c,
        0,
        states(0, 0, 0),
    );
}

pub(super) fn system() {
    let mode = SuspendMode::OsInitiated;
    let a = start().set_suspend_mode(CpuNumber(0), false, mode);
    say(
        "set mode without the feature gives -1",
        a,
        -1,
        states(0, 0, 0),
    );
    let b = next(a).system_suspend(CpuNumber(0), true, false, true, entry(), states(3, 3, 2));
    say("system suspend 3,3,2 hands 3,3,2", b, 0, states(3, 3, 2));
}
