// What C links of a whole script: the function of `script_calls`, under its own name.
#![tactic(auto)]

ghost use Rattle.std.specs.Prelude.{[], ◌∷◌, ◌≡◌, length};
ghost use Rattle.script_calls.specs.Script.{script_of};
ghost use Rattle.model.specs.Numbers.{number_of};
ghost use Rattle.script.specs.Run.{out_after};

// Starts fresh on a board and runs events; gives back the closing number, and in `taken` how many events were taken. A board that is refused takes none.
#[unsafe(no_mangle)]
pub extern "C" fn psci_script(
    board: &[u8],
    events: &[u8],
    out: &mut [u8],
    taken: &mut [u32; 1],
    budget: u32,
) -> i32
    ensures value { result ≡ number_of (script_of budget (length out.old) board.now events.now).answer.closing }
    ensures taken_after { taken.new
        ≡ (script_of budget (length out.old) board.now events.now).answer.events ∷ [] }
    ensures out_after { out.new
        ≡ out_after out.old (script_of budget (length out.old) board.now events.now) }
{
    script_calls::psci_script(board, events, out, taken, budget)
}
