// The calls, as methods by value on the whole state: each gives back its code, what goes out, and the next state. Each tests the state
// first; what it does with a sound one is in `sound_calls`.
#![tactic(auto)]

ghost use Rattle.std.specs.Prelude.{◌≡◌};
ghost use Rattle.model.specs.Calls.{tested};
ghost use Rattle.model.specs.SoundTest.{soundb};

mod down;
mod on;
mod wake;

use model::answer::CallAnswer;
use model::code::Refusal;
use model::state::State;
use outgoing::refused;
use soundness::sound;

// The Rust's `Psci`: here its state alone. What the platform and the SPM answer comes in with a call, what they are told goes out.
#[derive(Drop)]
pub struct Psci {
    pub state: State,
}

impl Psci {
    // What a call answers on a sound state; on any other it is 102.
    fn on_sound<F: FnOnce(State) -> CallAnswer + Drop>(self, call: F) -> CallAnswer
        requires { F.IsAlwaysCallable call }
        ensures { (a : CallAnswer) → ((x : CallAnswer) → F.post call self.state x → x ≡ a)
            → result ≡ tested (soundb self.state) self.state a }
    {
        if sound(self.state) {
            return call(self.state);
        }
        refused(self.state, Err(Refusal::NotSound))
    }
}
