// The calls that turn nothing off: on and set mode.
ghost use Rattle.std.specs.Prelude.{◌≡◌};
ghost use Rattle.board_calls.specs.Board.{count_on, mode_on, moded, mode_set, turned, turn_on};
ghost use Rattle.cpu_table.specs.CpuTable.{SameCpus, all_on_bytes, cpu_in, lent_cpus, others_off_bytes, view_rows};
ghost use Rattle.image.specs.Image.{mode_in};
ghost use Rattle.in_place.specs.Stepped.{mode_in as mode_code_in, on_in};

use crate::kept::{BOARD, count_on, keep, mode_on};
use cpu_table::walk::{all_on, others_off};
use cpu_table::{CpuTable, CpuView};
use image::mode_in;
use in_place::on::{cpu_on, set_suspend_mode};
use model::code::number;
use model::cpu::EntryPoint;
use model::sorts::CpuNumber;
use rows::cells::put;

// CPU_ON: turns a CPU on. The platform says whether the address is good, and what comes of its own part.
pub fn psci_cpu_on(
    board: &[u8; BOARD],
    cpus: &mut CpuTable,
    caller: CpuNumber,
    target: CpuNumber,
    entry: EntryPoint,
    address_good: bool,
    answer: u8,
) -> i32
    ensures same_cpus { SameCpus cpus.old cpus.new }
    ensures value { turned result (lent_cpus cpus.new)
        ≡ turn_on (lent_cpus cpus.old) target.0 (on_in (count_on board.now) caller.0 (cpu_in (lent_cpus cpus.old) caller.0)
        target.0 (cpu_in (lent_cpus cpus.old) target.0) entry address_good answer) }
{
    let by = cpus.cpu_in(caller);
    let node = cpus.cpu_in(target);
    let done = cpu_on(
        count_on(board),
        caller,
        by,
        target,
        node,
        entry,
        address_good,
        answer,
    );
    keep(cpus, target, done)
}

// PSCI_SET_SUSPEND_MODE: sets who coordinates the power states, 0 the platform, 1 the OS. The mode is a byte, as C hands it over.
pub fn psci_set_suspend_mode(
    board: &mut [u8; BOARD],
    cpus: CpuView,
    caller: CpuNumber,
    feature: bool,
    mode: u8,
) -> i32
    ensures { moded result board.new
        ≡ mode_set board.old mode (mode_code_in (count_on board.old) caller.0 (cpu_in (view_rows cpus.entry) caller.0)
        feature (mode_on board.old) (mode_in mode)
        (others_off_bytes (view_rows cpus.entry).affinities (count_on board.old) caller.0)
        (all_on_bytes (view_rows cpus.entry).affinities (count_on board.old))) }
{
    let by = cpus.cpu_in(caller);
    let count = count_on(board);
    let last = others_off(cpus.affinities, count, caller.0);
    let all = all_on(cpus.affinities, count);
    let current = mode_on(board);
    let code = set_suspend_mode(
        count,
        caller,
        by,
        last,
        all,
        current,
        feature,
        mode_in(mode),
    );
    if code.is_ok() {
        put(board, 4, mode);
        return 0;
    }
    number(code)
}
