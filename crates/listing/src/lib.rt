// Programs as text: `assemble`, the writer, turns lines of instructions into the program part of an image, and `disassemble`, the
// lister, turns it back.
#![tactic(auto)]

ghost use Rattle.std.specs.Prelude.{◌≤◌, ◌≡◌, length};
ghost use Rattle.wire.specs.Output.{overwrite};
ghost use Rattle.refusal.specs.Refusal.{number};
ghost use Rattle.monitor.specs.Calls.{as_answer, CallPromise};
ghost use Rattle.listing.specs.Listing.{line_text, listing_text, line_of, AssemblePromise, part_number, lines_of, disassemble_call};
ghost use Rattle.listing.specs.Inner.{read_line, told_bytes, kept, IsRead, kept_number};

use monitor::Written;
use refusal::Refusal;

// No program is longer, in bytes: 256 instructions of four.
pub const PROGRAM_MAX: usize = 1024;

// No listing is longer, in bytes: 256 lines of at most seventeen.
pub const LISTING_MAX: usize = 4352;

// ---- the writer

// A line that was read: its code, its numbers, each none where it is above 255, and how many bytes it has.
#[derive(Clone, Copy)]
struct ReadLine {
    code: u8,
    a: Option<u8>,
    b: Option<u8>,
    c: Option<u8>,
    length: usize,
}

// Reads the line at the front of a text, where one stands there. It stays a function of its own in the archive, so that its loops lie where
// tools/align puts them: within `assemble` a processor took a third more for a text without a blank.
#[inline(never)]
fn read_line(s: &[u8]) -> Option<ReadLine>
    ensures { result ≡ read_line s.now }
{
    let word = wire::take(s, wire::index_of(s, b' '));
    let code = word::code_of(word)?;
    let n = word.len() + 1;
    let behind_word = wire::drop(s, n);
    let a = text::read_number(behind_word, b' ');
    let end_a = a.length?;
    let behind_a = wire::drop(behind_word, end_a);
    let b = text::read_number(behind_a, b' ');
    let end_b = b.length?;
    let behind_b = wire::drop(behind_a, end_b);
    let c = text::read_number(behind_b, b'\n');
    let end_c = c.length?;
    Some(ReadLine {
        code,
        a: a.value,
        b: b.value,
        c: c.value,
        length: n + end_a + end_b + end_c,
    })
}

// The four bytes of a line, none where a number is above 255.
fn line_bytes(line: ReadLine) -> Option<[u8; 4]>
    ensures { result ≡ told_bytes line }
{
    Some([line.code, line.a?, line.b?, line.c?])
}

// Keeps the four bytes of a line behind those of `lines` others, where the program has room for them.
fn keep_line(program: &mut [u8], lines: usize, line: &[u8; 4])
    ensures { program.new ≡ kept lines line.now program.old }
{
    if lines < program.len() / 4 {
        wire::copy(&mut program[4 * lines..], line);
    }
}

// What was read of a list of lines: how many they are, and whether all their numbers are bytes. That one is not is told only behind the
// last line, since what is no list and the number of lines are refused ahead of it.
#[derive(Clone, Copy)]
struct ReadText {
    lines: usize,
    bytes: bool,
}

// Reads a whole text, where it is a list of lines, and keeps them where the program has room for them.
fn read_text(program: &mut [u8], text: &[u8]) -> Result<ReadText, Refusal>
    ensures { IsRead text.now program.new result }
{
    let mut rest = text;
    let mut lines: usize = 0;
    let mut bytes = true;
    // A line is as long as its parts are, and one that is none ends all: an iterator of lines would hide both behind a type of its own.
    while !rest.is_empty() {
        let line = read_line(rest).ok_or(Refusal::Text)?;
        match line_bytes(line) {
            Some(kept) => keep_line(program, lines, &kept),
            None => bytes = false,
        }
        lines += 1;
        rest = &rest[line.length..];
    }
    Ok(ReadText { lines, bytes })
}

// What is refused of the lines that were kept: how many they are, then their operands.
fn check_lines(program: &[u8], read: ReadText) -> Result<(), Refusal>
    ensures { number result ≡ kept_number program.now read.lines read.bytes }
{
    if !(1..=256).contains(&read.lines) {
        return Err(Refusal::ProgramLength);
    }
    if !read.bytes {
        return Err(Refusal::Instruction);
    }
    judge::check_instructions(wire::take(program, 4 * read.lines))
}

// Writes the program of a text.
pub fn assemble(text: &[u8], out: &mut [u8]) -> Result<Written, Refusal>
    ensures { AssemblePromise text.now out.old (as_answer result) out.new }
{
    let mut program: [u8; PROGRAM_MAX] = [0; PROGRAM_MAX];
    let read = read_text(&mut program, text)?;
    check_lines(&program, read)?;
    monitor::write_answer(out, &program[..4 * read.lines])
}

// ---- the lister

// What is refused of a program's bytes: how many they are, then their operands.
#[tactic(auto, unfolding(crate::specs::Listing::part_number))]
fn check_program(program: &[u8]) -> Result<(), Refusal>
    ensures { number result ≡ part_number program.now }
{
    if !image::is_program_length(program.len()) {
        return Err(Refusal::ProgramLength);
    }
    judge::check_instructions(program)
}

// Writes the line of an instruction's bytes: how many bytes.
fn put_line(out: &mut [u8], instruction: &[u8]) -> usize
    requires { (length instruction.now ≡ 4) × (length (line_text (line_of instruction.now)) ≤ length out.old) }
    ensures { (result ≡ length (line_text (line_of instruction.now)))
        × (out.new ≡ overwrite (line_text (line_of instruction.now)) out.old) }
{
    let n = word::put(out, instruction[0]);
    let operands = [
        u32::from(instruction[1]),
        u32::from(instruction[2]),
        u32::from(instruction[3]),
    ];
    n + text::put_line_rest(&mut out[n..], &operands)
}

// Writes the lines of a program's bytes: how many bytes.
fn put_lines(out: &mut [u8], program: &[u8]) -> usize
    requires { length (listing_text (lines_of program.now)) ≤ length out.old }
    ensures { (result ≡ length (listing_text (lines_of program.now)))
        × (out.new ≡ overwrite (listing_text (lines_of program.now)) out.old) }
{
    let mut at: usize = 0;
    // One loop for all lists that are written would take each item's promise as a predicate of its closure, which is no plainer.
    for instruction in program.chunks_exact(4) {
        at += put_line(&mut out[at..], instruction);
    }
    at
}

// Writes the text of a program. It is made in a buffer of its own first: only then is its length known.
pub fn disassemble(program: &[u8], out: &mut [u8]) -> Result<Written, Refusal>
    ensures { CallPromise (disassemble_call program.now) out.old (as_answer result) out.new }
{
    check_program(program)?;
    let mut text: [u8; LISTING_MAX] = [0; LISTING_MAX];
    let n = put_lines(&mut text, program);
    monitor::write_answer(out, &text[..n])
}
