// The words of the instructions: each is written by its code, and a code is found by its word.
#![tactic(auto)]

ghost use Rattle.std.specs.Prelude.{◌≤◌, ◌≡◌, length};
ghost use Rattle.wire.specs.Output.{overwrite};
ghost use Rattle.wire.specs.Inner.{same};
ghost use Rattle.word.specs.Word.{word_of};
ghost use Rattle.word.specs.Inner.{code_found};

// The number of words: their codes are 0 to 13.
pub const WORDS: u8 = 14;

// The word of a code, no bytes where the table has none, as `word_of` says.
#[tactic(auto, unfolding(crate::specs::Word::word_of, wire::specs::Lists::tabulate, text::specs::Text::ascii))]
fn word(code: u8) -> &'static [u8]
    ensures { result.now ≡ word_of code }
{
    match code {
        0x00 => b"end",
        0x01 => b"set",
        0x02 => b"copy",
        0x03 => b"add",
        0x04 => b"subtract",
        0x05 => b"go",
        0x06 => b"zero",
        0x07 => b"raise",
        0x08 => b"send",
        0x09 => b"take",
        0x0A => b"poll",
        0x0B => b"sandbox",
        0x0C => b"self",
        0x0D => b"count",
        _ => b"",
    }
}

// Writes the word of a code: how many bytes.
pub fn put(out: &mut [u8], code: u8) -> usize
    requires { length (word_of code) ≤ length out.old }
    ensures { (result ≡ length (word_of code)) × (out.new ≡ overwrite (word_of code) out.old) }
{
    text::put(out, word(code))
}

// Whether s is the word of a code.
fn is_word(s: &[u8], code: u8) -> bool
    ensures { result ≡ same s.now (word_of code) }
{
    wire::same(s, word(code))
}

// The code of a word, none where it is not in the table.
pub fn code_of(s: &[u8]) -> Option<u8>
    ensures { result ≡ code_found s.now }
{
    (0..WORDS).find(|&code| is_word(s, code))
}
