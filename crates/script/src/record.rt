use model::call::Call;
use model::sorts::CpuNumber;
use model::states::Platform;

// What stands where the next event is to be read. No Result of an Option: three names are plainer.
#[derive(Drop)]
pub enum Read {
    // nothing: the input has ended
    End,
    // the event's call, and the place of the next record
    Event(Call, usize),
    // 108
    Malformed,
}

// What a board record says.
#[derive(Drop)]
pub struct BoardRecord {
    pub platform: Platform,
    pub primary: CpuNumber,
    // the place of the next record; the topology stands before it
    pub next: usize,
}
