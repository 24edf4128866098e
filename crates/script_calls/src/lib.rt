// A whole script: a board's record, and then its events.
#![tactic(auto)]

ghost use Rattle.std.specs.Prelude.{[], ◌∷◌, ◌≡◌, length};
ghost use Rattle.script_calls.specs.Script.{script_of};
ghost use Rattle.model.specs.Numbers.{number_of};
ghost use Rattle.script.specs.Run.{out_after};

use model::code::number;
use script_run::{run, start};

// Starts fresh on a board and runs events; gives back the closing number, and in `taken` how many events were taken. A board that is refused takes none.
pub fn psci_script(
    board: &[u8],
    events: &[u8],
    out: &mut [u8],
    taken: &mut [u32; 1],
    budget: u32,
) -> i32
    ensures value { result ≡ number_of (script_of budget (length out.old) board.now events.now).answer.closing }
    ensures taken_after { taken.new
        ≡ (script_of budget (length out.old) board.now events.now).answer.events ∷ [] }
    ensures out_after { out.new
        ≡ out_after out.old (script_of budget (length out.old) board.now events.now) }
{
    let begun = start(board);
    if begun.code.is_ok() {
        let done = run(events, out, begun.state, budget);
        *taken = [done.events];
        return number(done.closing);
    }
    *taken = [0];
    number(begun.code)
}
