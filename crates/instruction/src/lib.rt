// Instructions: each code is decoded into one form that carries its own operands.
#![tactic(auto)]

ghost use Rattle.std.specs.Prelude.{◌<◌, ◌≡◌, true, Some};
ghost use Rattle.instruction.specs.Table.{decode};
ghost use Rattle.instruction.specs.Program.{count, instruction_at, all_legal};
ghost use Rattle.instruction.specs.Inner.{form_of};

// The table of 01 with U4's row, a case to a row; `Identity` is its word self, which the language reserves.
#[derive(Clone, Copy, Debug, PartialEq, Eq)]
pub enum Instruction {
    End,
    Set(u8, u8, u8),
    Copy(u8, u8),
    Add(u8, u8, u8),
    Subtract(u8, u8, u8),
    Go(u8),
    Zero(u8, u8),
    Raise(u8),
    Send(u8, u8, u8),
    Take(u8, u8),
    Poll(u8, u8, u8),
    Sandbox(u8, u8, u8),
    Identity(u8, u8),
    Count(u8),
}

// The instruction in four bytes of a program of n instructions: 01's one match over the code byte, with the ranges checked. `form`, which
// checks none, is a match of its own.
#[tactic(auto, using(crate::proofs::Arms::by_row))]
pub fn decode(n: usize, code: u8, a: u8, b: u8, c: u8) -> Option<Instruction>
    ensures { result ≡ decode n code a b c }
{
    match code {
        0x00 => ((a == 0) & (b == 0) & (c == 0)).then_some(Instruction::End),
        0x01 => (a < 8).then_some(Instruction::Set(a, b, c)),
        0x02 => ((a < 8) & (b < 8) & (c == 0)).then_some(Instruction::Copy(a, b)),
        0x03 => ((a < 8) & (b < 8) & (c < 8)).then_some(Instruction::Add(a, b, c)),
        0x04 => ((a < 8) & (b < 8) & (c < 8)).then_some(Instruction::Subtract(a, b, c)),
        0x05 => (((a as usize) < n) & (b == 0) & (c == 0)).then_some(Instruction::Go(a)),
        0x06 => ((a < 8) & ((b as usize) < n) & (c == 0)).then_some(Instruction::Zero(a, b)),
        0x07 => ((a < 16) & (b == 0) & (c == 0)).then_some(Instruction::Raise(a)),
        0x08 => ((a < 8) & (b < 16) & (c < 8)).then_some(Instruction::Send(a, b, c)),
        0x09 => ((a < 8) & (b < 8) & (c == 0)).then_some(Instruction::Take(a, b)),
        0x0A => ((a < 8) & (b < 8) & ((c as usize) < n)).then_some(Instruction::Poll(a, b, c)),
        0x0B => ((a < 8) & ((b as usize) < n) & ((1 <= c) & (c <= 15))).then_some(
            Instruction::Sandbox(a, b, c),
        ),
        0x0C => ((a < 8) & (b < 8) & (c == 0)).then_some(Instruction::Identity(a, b)),
        0x0D => ((a < 8) & (b == 0) & (c == 0)).then_some(Instruction::Count(a)),
        _ => None,
    }
}

// The instruction at index pc of a program's bytes; none is legal past its last.
#[tactic(auto, using(crate::proofs::Program::by_place))]
pub fn instruction_at(program: &[u8], pc: usize) -> Option<Instruction>
    ensures { result ≡ instruction_at program.now pc }
{
    let n = program.len() / 4;
    if pc < n {
        let at = 4 * pc;
        decode(
            n,
            program[at],
            program[at + 1],
            program[at + 2],
            program[at + 3],
        )
    } else {
        None
    }
}

// Whether every instruction of a program's bytes is in the table.
pub fn all_legal(program: &[u8]) -> bool
    ensures { result ≡ all_legal program.now }
{
    let n = program.len() / 4;
    (0..n).all(|pc| instruction_at(program, pc).is_some())
}

// The form of a code with its operands, which are not looked at. A program whose check has passed has the table's codes alone, so
// the last of them takes what is left: another arm would cost every turn (docs/BENCHMARKS.md).
#[tactic(auto, using(crate::proofs::Arms::by_form))]
fn form(code: u8, a: u8, b: u8, c: u8) -> Instruction
    ensures { result ≡ form_of code a b c }
{
    match code {
        0x00 => Instruction::End,
        0x01 => Instruction::Set(a, b, c),
        0x02 => Instruction::Copy(a, b),
        0x03 => Instruction::Add(a, b, c),
        0x04 => Instruction::Subtract(a, b, c),
        0x05 => Instruction::Go(a),
        0x06 => Instruction::Zero(a, b),
        0x07 => Instruction::Raise(a),
        0x08 => Instruction::Send(a, b, c),
        0x09 => Instruction::Take(a, b),
        0x0A => Instruction::Poll(a, b, c),
        0x0B => Instruction::Sandbox(a, b, c),
        0x0C => Instruction::Identity(a, b),
        _ => Instruction::Count(a),
    }
}

// The instruction at index pc of a program whose check has passed: nothing is tested again.
#[tactic(auto, using(crate::proofs::Program::form_legal))]
pub fn legal_at(program: &[u8], pc: usize) -> Instruction
    requires { (all_legal program.now ≡ true) × (pc < count program.now) }
    ensures { instruction_at program.now pc ≡ Some result }
{
    let first = 4 * pc;
    form(
        program[first],
        program[first + 1],
        program[first + 2],
        program[first + 3],
    )
}
