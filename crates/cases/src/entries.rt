// The entry that a CPU's record holds.
use cpu::{new, pop_entry_point};
use cpu_lent::setters::set_entry_point;
use lines::say;
use model::code::number;
use model::cpu::{CpuPowerNode, EntryPoint};
use model::sorts::DomainNumber;

fn entry(address: u64) -> EntryPoint {
    EntryPoint {
        address,
        context: 7,
    }
}

// A CPU that holds the entry at 4096.
fn holder() -> CpuPowerNode {
    cpu::set_entry_point(new(DomainNumber(1), 3), entry(4096)).1
}

fn run_held() {
    let mut cpu = holder();
    let over = set_entry_point(&mut cpu, entry(8192));
    say("an entry over a held one is 102", number(over) == 102);
    say("the held one stays", cpu.entry_point == Some(entry(4096)));
}

fn run_popped() {
    let mut cpu = holder();
    let popped = pop_entry_point(&mut cpu);
    say("it is handed out", popped == Some(entry(4096)));
    say("and cleared", cpu.entry_point.is_none());
}

pub(super) fn run() {
    run_held();
    run_popped();
}
