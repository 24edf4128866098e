// The bytes of an answer record.
pub const ANSWER: usize = 13;

// The byte at each level of an answer record where there is no such CPU: no Option, since the record has the byte.
pub const NO_CPU_STATE: u8 = 255;

// Where the topology stands in a board record.
pub const TOPOLOGY: usize = 9;

// The most bytes of input that `scriptrun` takes.
pub const INPUT: usize = 16_000;

// The events that `scriptrun` takes at the most.
pub const EVENTS: u32 = 3_000;

// Room for the answer records of so many events.
pub const ANSWERS: usize = 39_000;

// Room for the text of so many events: no text is longer.
pub const TEXT: usize = 201_080;
