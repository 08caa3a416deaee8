// The meaning of documents 01 and 02: definitions in specs/, laws in proofs/ and types for the code of
// other crates.
#![tactic(auto)]

ghost use Rattle.std.specs.Prelude.{◌<◌};

// The number of one of the sixteen slots.
#[derive(Clone, Copy)]
pub struct SlotNumber {
    pub number: usize,
    ghost in_range: { number < 16 },
}

// The kinds of a task, each with the number that a byte says it by; 0 says that a slot is unused.
#[derive(Clone, Copy, Debug, PartialEq, Eq)]
pub enum Kind {
    Live = 1,
    Done = 2,
    PastProgram = 3,
    StoppedByLabel = 4,
    WithoutSpare = 5,
    StoppedByClearance = 6,
}

// A message of a mailbox, or on its way to one.
#[derive(Clone, Copy)]
pub struct Message {
    pub label: u8,
    pub sender: u8,
    pub value: u32,
}

// What a search of a mailbox tells at a label (02, U4): the index of the oldest message that is receivable there, which is how many
// messages there are where none is; and how many are receivable.
#[derive(Clone, Copy)]
pub struct Found {
    pub oldest: usize,
    pub receivable: usize,
}
