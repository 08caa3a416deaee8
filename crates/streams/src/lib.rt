// Reading into a buffer of fixed size and writing all of a text, for the programs.
#![tactic(auto)]

ghost use Rattle.std.specs.Prelude.{ℕ, ◌<◌, ◌≤◌, length, take, IfOk, OnOk, OnErr};
ghost use Rattle.std.specs.Io.KnownBytes.{Appends, Consumes, IsAtEnd};

use std::io;
use std::io::{Read, Write};

// Reads until the buffer is full or the input ends, since one read may give less: how many bytes, at the front of the buffer. A read that
// fails ends it: what was read before stands there too. `read_exact` refuses an input that ends before, and says nothing of `failed`.
pub fn read_full<R: Read>(input: &mut R, buffer: &mut [u8]) -> io::Result<usize>
    ensures within { IfOk result (λ n. n ≤ length buffer.new) }
    ensures bytes { IfOk result (λ n. Consumes (R.remaining input.old) (R.remaining input.new) (take n buffer.new)) }
    ensures end { IfOk result (λ n. n < length buffer.new → IsAtEnd (R.remaining input.new)) }
    ensures failed { OnErr result ((n : ℕ) × Consumes (R.remaining input.old) (R.remaining input.new) (take n buffer.new)) }
{
    let mut n = 0;
    while n < buffer.len() {
        let more = input.read(&mut buffer[n..])?;
        if more == 0 {
            break;
        }
        n += more;
    }
    Ok(n)
}

// Writes all of a text, since one write may take less. A write that fails or takes nothing ends it: a front of the text was written.
// `write_all` says nothing of `failed`.
pub fn write_full<W: Write>(output: &mut W, text: &[u8]) -> io::Result<()>
    ensures whole { OnOk result (Appends (W.contents output.old) (W.contents output.new) text.now) }
    ensures failed { OnErr result ((n : ℕ) × Appends (W.contents output.old) (W.contents output.new) (take n text.now)) }
{
    let mut n = 0;
    while n < text.len() {
        let taken = output.write(&text[n..])?;
        if taken == 0 {
            return Err(io::Error::from(io::ErrorKind::WriteZero));
        }
        n += taken;
    }
    Ok(())
}
