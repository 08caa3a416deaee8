// Why a call is refused: each reason has its number, in the order of 01 and 02.
#![tactic(auto)]

ghost use Rattle.std.specs.Prelude.{◌≡◌};
ghost use Rattle.refusal.specs.Refusal.{number_of};

// include/rithennaw.h has a sentence for each.
#[derive(Clone, Copy, Debug, PartialEq, Eq)]
pub enum Refusal {
    Observer = 1,
    TurnLimit = 2,
    Short = 3,
    Version = 4,
    ProgramLength = 5,
    Instruction = 6,
    TurnSlot = 7,
    RecordLength = 8,
    TaskField = 9,
    Mail = 10,
    Tail = 11,
    Estate = 12,
    Output = 13,
    PostSlot = 14,
    PostLabel = 15,
    Text = 16,
}

impl From<Refusal> for u8 {
    ghost from_gives = { λ refusal number. number ≡ number_of refusal };

    fn from(refusal: Refusal) -> u8 {
        refusal as u8
    }
}
