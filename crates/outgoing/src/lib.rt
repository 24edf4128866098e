// What goes out with an answer.
#![tactic(auto)]

ghost use Rattle.std.specs.Prelude.{◌≡◌, false, [], None};
ghost use Rattle.model.specs.Answer.{not_entered_out, nothing_out, notices_of, outgoing, refused};
ghost use Rattle.model.specs.Steps.{boot_out, core_power_down, finish_out, off_out, suspend_out};

use composite::{all_run, is_down, level_found};
use cpu::is_pending;
use model::answer::{CallAnswer, Notice, Notices, Outgoing, WakeUpReason};
use model::code::Refusal;
use model::cpu::CpuPowerNode;
use model::state::State;
use model::states::{CompositeState, Platform};
use states::composite::cpu_level_state;
use states::request::find_highest_power_down_level;

// No notices.
fn no_notices() -> Notices
    ensures { result ≡ notices_of [] }
{
    Notices {
        first: None,
        second: None,
        third: None,
        fourth: None,
        fifth: None,
    }
}

// Nothing goes out.
pub fn nothing_out() -> Outgoing
    ensures { result ≡ nothing_out }
{
    with_notices(all_run(), no_notices())
}

// A refusal: the state as it was handed in, and nothing goes out.
pub fn refused(state: State, code: Result<(), Refusal>) -> CallAnswer
    ensures { result ≡ refused state code }
{
    CallAnswer {
        code,
        out: nothing_out(),
        state,
    }
}

// A suspend is not entered.
pub fn not_entered_out() -> Outgoing
    ensures { result ≡ not_entered_out }
{
    Outgoing {
        states: all_run(),
        notices: no_notices(),
        not_entered: true,
        wake: None,
        entry: None,
    }
}

// The states are handed to the platform, and these notices go out.
fn with_notices(states: CompositeState, notices: Notices) -> Outgoing
    ensures { result ≡ outgoing states notices false None None }
{
    Outgoing {
        states,
        notices,
        not_entered: false,
        wake: None,
        entry: None,
    }
}

// The core powers down, with the highest power-down level.
fn core_power_down(p: Platform, x: CompositeState) -> Notice
    ensures { result ≡ core_power_down p x }
{
    Notice::CorePowerDown(level_found(find_highest_power_down_level(p, x)))
}

// Off.
pub fn off_out(p: Platform, x: CompositeState) -> Outgoing
    ensures { result ≡ off_out p x }
{
    let notices = Notices {
        first: Some(Notice::SpmToldOff),
        second: Some(Notice::SpmNotifiedOff),
        third: Some(core_power_down(p, x)),
        fourth: Some(Notice::PlatformOff(x)),
        fifth: Some(Notice::PlatformPowerDown(x)),
    };
    with_notices(x, notices)
}

// Suspend: if it is power-down, the SPM is told and the core powers down; then platform suspend; if it is power-down, platform
// power-down.
pub fn suspend_out(p: Platform, x: CompositeState, told: Notice) -> Outgoing
    ensures { result ≡ suspend_out p x told }
{
    if is_down(p, cpu_level_state(x)) {
        let notices = Notices {
            first: Some(told),
            second: Some(core_power_down(p, x)),
            third: Some(Notice::PlatformSuspend(x)),
            fourth: Some(Notice::PlatformPowerDown(x)),
            fifth: None,
        };
        return with_notices(x, notices);
    }
    let notices = Notices {
        first: Some(Notice::PlatformSuspend(x)),
        ..no_notices()
    };
    with_notices(x, notices)
}

// Finish: the states are handed to suspend-finish; a power-down one adds the abandon notice.
pub fn finish_out(p: Platform, x: CompositeState) -> Outgoing
    ensures { result ≡ finish_out p x }
{
    let abandon = is_down(p, cpu_level_state(x)).then_some(Notice::SpmAbandon);
    let notices = Notices {
        first: Some(Notice::SuspendFinish(x)),
        second: abandon,
        ..no_notices()
    };
    with_notices(x, notices)
}

// Boot: the states are handed to on-finish or suspend-finish; which of the two it was, and the entry.
pub fn boot_out(node: CpuPowerNode, x: CompositeState) -> Outgoing
    ensures { result ≡ boot_out node x }
{
    if is_pending(node.affinity_info) {
        let notices = Notices {
            first: Some(Notice::OnFinish(x)),
            ..no_notices()
        };
        return Outgoing {
            states: x,
            notices,
            not_entered: false,
            wake: Some(WakeUpReason::CpuOn),
            entry: node.entry_point,
        };
    }
    let notices = Notices {
        first: Some(Notice::SuspendFinish(x)),
        ..no_notices()
    };
    Outgoing {
        states: x,
        notices,
        not_entered: false,
        wake: Some(WakeUpReason::SuspendFinished),
        entry: node.entry_point,
    }
}
