// The event that a record of each kind is. What is left of the input starts with the record.
ghost use Rattle.std.specs.Prelude.{◌≡◌};
ghost use Rattle.script.specs.Record.{boot_in, event_if, finish_in, off_in, on_in, set_mode_in, suspend_in, system_suspend_in};

use crate::fields::{cpu_at, entry_at, flag, is_flag, mode_at, size_in, states_at, zero_above};
use model::call::Call;
use model::code::is_answer;
use model::sorts::PowerLevel;
use rows::cells;
use script::record::Read;

// The event, if its fields are good; the next record follows this one.
fn event_if(good: bool, call: Call, rest: &[u8]) -> Read
    ensures { result ≡ event_if good call rest.now }
{
    if !good {
        return Read::Malformed;
    }
    Read::Event(call, size_in(rest))
}

// On: caller, target, address, context, address-good, answer.
#[tactic(auto, unfolding(script::specs::Record::on_in))]
pub fn on_in(rest: &[u8]) -> Read
    ensures { result ≡ on_in rest.now }
{
    let answer = cells::at(rest, 23);
    let good = is_flag(rest, 22) & is_answer(answer);
    let call = Call::On(
        cpu_at(rest, 4),
        cpu_at(rest, 5),
        entry_at(rest, 6),
        flag(rest, 22),
        answer,
    );
    event_if(good, call, rest)
}

// Off: caller, early answer.
#[tactic(auto, unfolding(script::specs::Record::off_in))]
pub fn off_in(rest: &[u8]) -> Read
    ensures { result ≡ off_in rest.now }
{
    let early = cells::at(rest, 5);
    let call = Call::Off(cpu_at(rest, 4), early);
    event_if(is_answer(early), call, rest)
}

// Suspend: caller, pending, address, context, four states.
#[tactic(auto, unfolding(script::specs::Record::suspend_in))]
pub fn suspend_in(rest: &[u8], max: PowerLevel) -> Read
    ensures { result ≡ suspend_in max.0 rest.now }
{
    let asked = states_at(rest, 22);
    let good = is_flag(rest, 5) & zero_above(max, asked);
    let call = Call::Suspend(cpu_at(rest, 4), flag(rest, 5), entry_at(rest, 6), asked);
    event_if(good, call, rest)
}

// Finish: CPU.
#[tactic(auto, unfolding(script::specs::Record::finish_in))]
pub fn finish_in(rest: &[u8]) -> Read
    ensures { result ≡ finish_in rest.now }
{
    let call = Call::Finish(cpu_at(rest, 4));
    event_if(true, call, rest)
}

// Boot: CPU.
#[tactic(auto, unfolding(script::specs::Record::boot_in))]
pub fn boot_in(rest: &[u8]) -> Read
    ensures { result ≡ boot_in rest.now }
{
    let call = Call::Boot(cpu_at(rest, 4));
    event_if(true, call, rest)
}

// System suspend: caller, feature, pending, address-good, address, context, four states.
#[tactic(auto, unfolding(script::specs::Record::system_suspend_in))]
pub fn system_suspend_in(rest: &[u8], max: PowerLevel) -> Read
    ensures { result ≡ system_suspend_in max.0 rest.now }
{
    let asked = states_at(rest, 24);
    let good = is_flag(rest, 5) & is_flag(rest, 6) & is_flag(rest, 7) & zero_above(max, asked);
    let caller = cpu_at(rest, 4);
    let entry = entry_at(rest, 8);
    let call = Call::SystemSuspend(
        caller,
        flag(rest, 5),
        flag(rest, 6),
        flag(rest, 7),
        entry,
        asked,
    );
    event_if(good, call, rest)
}

// Mode: caller, feature, the mode.
#[tactic(auto, unfolding(script::specs::Record::set_mode_in))]
pub fn set_mode_in(rest: &[u8]) -> Read
    ensures { result ≡ set_mode_in rest.now }
{
    let good = is_flag(rest, 5) & is_flag(rest, 6);
    let call = Call::SetMode(cpu_at(rest, 4), flag(rest, 5), mode_at(rest, 6));
    event_if(good, call, rest)
}
