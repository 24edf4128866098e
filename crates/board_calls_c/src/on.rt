// The calls that turn nothing off: on and set mode.
ghost use Rattle.std.specs.Prelude.{◌≡◌};
ghost use Rattle.board_calls.specs.Board.{count_on, mode_on, moded, mode_set, turned, turn_on};
ghost use Rattle.cpu_table.specs.CpuTable.{all_on_bytes, cpu_in, cpu_table, others_off_bytes};
ghost use Rattle.image.specs.Image.{mode_in};
ghost use Rattle.in_place.specs.Stepped.{mode_in as mode_code_in, on_in};

use board_calls::kept::BOARD;
use cpu_table::{CpuTable, CpuView};
use model::cpu::EntryPoint;
use model::limits::CPUS;
use model::sorts::CpuNumber;

// CPU_ON: turns a CPU on. The platform says whether the address is good, and what comes of its own part.
#[unsafe(no_mangle)]
pub extern "C" fn psci_cpu_on(
    board: &[u8; BOARD],
    firsts: &[u8; CPUS],
    affinities: &mut [u8; CPUS],
    locals: &mut [u8; CPUS],
    helds: &mut [u8; CPUS],
    addresses: &mut [u64; CPUS],
    contexts: &mut [u64; CPUS],
    caller: u8,
    target: u8,
    address: u64,
    context: u64,
    address_good: bool,
    answer: u8,
) -> i32
    ensures { turned result
        (cpu_table firsts.now affinities.new locals.new helds.new addresses.new contexts.new)
        ≡ turn_on (cpu_table firsts.now affinities.old locals.old helds.old addresses.old contexts.old)
        target (on_in (count_on board.now) caller
        (cpu_in (cpu_table firsts.now affinities.old locals.old helds.old addresses.old contexts.old) caller) target
        (cpu_in (cpu_table firsts.now affinities.old locals.old helds.old addresses.old contexts.old) target)
        (record { address = address; context = context }) address_good answer) }
{
    let mut cpus = CpuTable {
        firsts,
        affinities,
        locals,
        helds,
        addresses,
        contexts,
    };
    let entry = EntryPoint { address, context };
    board_calls::on::psci_cpu_on(
        board,
        &mut cpus,
        CpuNumber(caller),
        CpuNumber(target),
        entry,
        address_good,
        answer,
    )
}

// PSCI_SET_SUSPEND_MODE: sets who coordinates the power states, 0 the platform, 1 the OS.
#[unsafe(no_mangle)]
pub extern "C" fn psci_set_suspend_mode(
    board: &mut [u8; BOARD],
    firsts: &[u8; CPUS],
    affinities: &[u8; CPUS],
    locals: &[u8; CPUS],
    helds: &[u8; CPUS],
    addresses: &[u64; CPUS],
    contexts: &[u64; CPUS],
    caller: u8,
    feature: bool,
    mode: u8,
) -> i32
    ensures { moded result board.new
        ≡ mode_set board.old mode (mode_code_in (count_on board.old) caller
        (cpu_in (cpu_table firsts.now affinities.now locals.now helds.now addresses.now contexts.now) caller) feature
        (mode_on board.old) (mode_in mode) (others_off_bytes affinities.now (count_on board.old) caller)
        (all_on_bytes affinities.now (count_on board.old))) }
{
    let cpus = CpuView {
        firsts,
        affinities,
        locals,
        helds,
        addresses,
        contexts,
    };
    board_calls::on::psci_set_suspend_mode(board, cpus, CpuNumber(caller), feature, mode)
}
