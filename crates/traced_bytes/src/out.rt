// What goes out, in bytes.
ghost use Rattle.std.specs.Prelude.{[], ◌∷◌, ◌≡◌};
ghost use Rattle.model.specs.Composite.{states_of};
ghost use Rattle.script.specs.Bytes.{byte_at};
ghost use Rattle.traced_bytes.specs.Bytes.{entry_byte, flag_byte, head_byte, notice_at, notice_bytes, point_bytes, wake_byte};

use answers::code_byte;
use model::answer::{CallAnswer, Notice, Notices, Outgoing, WakeUpReason};
use model::cpu::EntryPoint;
use model::states::CompositeState;
use rows::cells::at;

pub fn flag_byte(flag: bool) -> u8
    ensures { result ≡ flag_byte flag }
{
    u8::from(flag)
}

// The numbers of a reply; an Option has none.
pub fn wake_byte(wake: Option<WakeUpReason>) -> u8
    ensures { result ≡ wake_byte wake }
{
    match wake {
        None => 0,
        Some(WakeUpReason::CpuOn) => 1,
        Some(WakeUpReason::SuspendFinished) => 2,
    }
}

// A first byte, and after it address and context.
fn point_bytes(first: u8, e: EntryPoint) -> [u8; 17]
    ensures { result ≡ point_bytes first e }
{
    let [a0, a1, a2, a3, a4, a5, a6, a7] = e.address.to_le_bytes();
    let [c0, c1, c2, c3, c4, c5, c6, c7] = e.context.to_le_bytes();
    [
        first, a0, a1, a2, a3, a4, a5, a6, a7, c0, c1, c2, c3, c4, c5, c6, c7,
    ]
}

// A byte of them.
fn point_byte(kind: u8, e: EntryPoint, i: usize) -> u8
    ensures { result ≡ byte_at (point_bytes kind e) i }
{
    let bytes = point_bytes(kind, e);
    at(&bytes, i)
}

// A byte of an entry. In a reply 0 or 1 goes first: an Option has no number.
pub fn entry_byte(entry: Option<EntryPoint>, i: usize) -> u8
    ensures { result ≡ entry_byte entry i }
{
    match entry {
        None => 0,
        Some(e) => point_byte(1, e, i),
    }
}

// A byte of a notice of this kind: one that carries nothing, a level, or states. Three functions: an array's length is of its type.
fn kind_byte(kind: u8, i: usize) -> u8
    ensures { result ≡ byte_at (kind ∷ []) i }
{
    at(&[kind], i)
}

fn level_byte(kind: u8, level: u8, i: usize) -> u8
    ensures { result ≡ byte_at (kind ∷ level ∷ []) i }
{
    at(&[kind, level], i)
}

fn states_byte(kind: u8, c: CompositeState, i: usize) -> u8
    ensures { result ≡ byte_at (kind ∷ states_of c) i }
{
    at(&[kind, c.level0, c.level1, c.level2, c.level3], i)
}

// A byte of a notice. A match and no table: each notice carries something else.
pub fn notice_byte(notice: Option<Notice>, i: usize) -> u8
    ensures { result ≡ byte_at (notice_bytes notice) i }
{
    match notice {
        None => 0,
        Some(Notice::SpmToldOff) => kind_byte(1, i),
        Some(Notice::SpmToldSuspend(e)) => point_byte(2, e, i),
        Some(Notice::SpmToldSystemSuspend(e)) => point_byte(3, e, i),
        Some(Notice::SpmNotifiedOff) => kind_byte(4, i),
        Some(Notice::SpmAbandon) => kind_byte(5, i),
        Some(Notice::CorePowerDown(level)) => level_byte(6, level.0, i),
        Some(Notice::PlatformOff(c)) => states_byte(7, c, i),
        Some(Notice::PlatformSuspend(c)) => states_byte(8, c, i),
        Some(Notice::PlatformPowerDown(c)) => states_byte(9, c, i),
        Some(Notice::SuspendFinish(c)) => states_byte(10, c, i),
        Some(Notice::OnFinish(c)) => states_byte(11, c, i),
    }
}

// A notice by its place.
pub fn notice_at(notices: Notices, k: u8) -> Option<Notice>
    ensures { result ≡ notice_at notices k }
{
    match k {
        0 => notices.first,
        1 => notices.second,
        2 => notices.third,
        3 => notices.fourth,
        4 => notices.fifth,
        _ => None,
    }
}

// The code, whether a suspend was not entered, and which wake it was.
pub fn head_byte(a: CallAnswer, i: usize) -> u8
    ensures { result ≡ head_byte a i }
{
    let head = [
        code_byte(a.code),
        flag_byte(a.out.not_entered),
        wake_byte(a.out.wake),
    ];
    at(&head, i)
}

// A byte of the entry that is handed out.
pub fn handed_byte(out: Outgoing, i: usize) -> u8
    ensures { result ≡ entry_byte out.entry i }
{
    entry_byte(out.entry, i)
}

// A byte of a notice by its place.
pub fn notices_byte(out: Outgoing, k: u8, i: usize) -> u8
    ensures { result ≡ byte_at (notice_bytes (notice_at out.notices k)) i }
{
    notice_byte(notice_at(out.notices, k), i)
}
