use model::code::Refusal;
use model::state::State;
use model::states::CompositeState;

// The start of a script: beside a refusal stands a state of zeros. No Result: the definition `start_with`,
// under the theorem `bytes_demand_3`, has the state beside the code, of a refusal too.
#[derive(Drop)]
pub struct Start {
    pub code: Result<(), Refusal>,
    // the place of the first event
    pub next: usize,
    pub state: State,
}

// What an event gives. No Result: a refusal shows states as well, as the theorem `event_record` says.
#[derive(Drop)]
pub struct EventAnswer {
    pub code: Result<(), Refusal>,
    // the stored states after the call, along the path of the CPU that the event names
    pub shown: CompositeState,
    pub state: State,
}

// What a run answers. No Result: each part holds at every closing, for the run goes as far as it went.
#[derive(Drop)]
pub struct RunAnswer {
    // how many events were taken
    pub events: u32,
    // why it ended there: 0 is the clean end
    pub closing: Result<(), Refusal>,
    // how many bytes of the output were written
    pub written: usize,
    pub state: State,
}
