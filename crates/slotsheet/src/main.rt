// The program `slotsheet`: reads one observer byte and an image from standard input and prints the observer sheet.
#![tactic(auto)]

ghost use Rattle.std.specs.Prelude.{ℕ, take, IfSome, OnErr, OnOk};
ghost use Rattle.std.specs.Io.KnownBytes.{Appends};
ghost use Rattle.sheet.specs.Sheet.{printed};

use std::io;
use std::io::{Read, Write};

// One byte more than the program takes, so that a longer input is seen to be longer.
const READ_MAX: usize = sheet::INPUT_MAX + 1;

// Prints what is to be printed for all that the source has; where a read or a write fails, a front of that. It says so of sources and targets
// whose bytes are known, and a stream's are not.
fn show<R: Read, W: Write>(source: &mut R, target: &mut W) -> io::Result<()>
    ensures whole { OnOk result (IfSome (R.remaining source.old) (λ bytes. Appends (W.contents target.old) (W.contents target.new) (printed bytes))) }
    ensures failed { OnErr result (IfSome (R.remaining source.old) (λ bytes. (n : ℕ) × Appends (W.contents target.old) (W.contents target.new) (take n (printed bytes)))) }
{
    let mut bytes: [u8; READ_MAX] = [0; READ_MAX];
    let n = streams::read_full(source, &mut bytes)?;
    let mut text: [u8; sheet::SHEET_MAX] = [0; sheet::SHEET_MAX];
    let length = sheet::print(&bytes[..n], &mut text);
    streams::write_full(target, &text[..length])
}

fn main(rt: HostRuntime) -> io::Result<()> {
    show(&mut rt.stdin(), &mut rt.stdout())
}
