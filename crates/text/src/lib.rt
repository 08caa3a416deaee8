// Text as bytes: numbers in decimal and lines of them, written at the front of an output that has room, and numbers that are read.
#![tactic(auto)]

ghost use Rattle.std.specs.Prelude.{◌≤◌, ◌≡◌, length};
ghost use Rattle.wire.specs.Lists.{all};
ghost use Rattle.wire.specs.Items.{encode_items};
ghost use Rattle.wire.specs.Output.{overwrite};
ghost use Rattle.text.specs.Text.{decimal, spaced, line_rest};
ghost use Rattle.text.specs.Inner.{is_digit, is_decimal, value_from, byte_value, number_read};

// ---- writing: a writer takes an output that has room and tells how many bytes it wrote, so that its caller lends what is left to the
// next. A writer that kept the place would be the buffer with a length beside.

// Writes a text: how many bytes.
pub fn put(out: &mut [u8], text: &[u8]) -> usize
    requires { length text.now ≤ length out.old }
    ensures { (result ≡ length text.now) × (out.new ≡ overwrite text.now out.old) }
{
    wire::copy(out, text);
    text.len()
}

// Writes a number in decimal: how many digits.
// `write!` to the slice tells a lack of room, which cannot be here, and how many bytes it wrote has to be told from what is left.
pub fn put_decimal(out: &mut [u8], x: u32) -> usize
    requires { length (decimal x) ≤ length out.old }
    ensures { (result ≡ length (decimal x)) × (out.new ≡ overwrite (decimal x) out.old) }
{
    if x < 10 {
        out[0] = b'0' + (x % 10) as u8;
        1
    } else {
        let n = put_decimal(out, x / 10);
        out[n] = b'0' + (x % 10) as u8;
        n + 1
    }
}

// Writes a space and a number: how many bytes.
fn put_spaced(out: &mut [u8], x: u32) -> usize
    requires { length (spaced x) ≤ length out.old }
    ensures { (result ≡ length (spaced x)) × (out.new ≡ overwrite (spaced x) out.old) }
{
    out[0] = b' ';
    1 + put_decimal(&mut out[1..], x)
}

// Writes numbers, each behind a space: how many bytes.
fn put_numbers(out: &mut [u8], numbers: &[u32]) -> usize
    requires { length (encode_items spaced numbers.now) ≤ length out.old }
    ensures { (result ≡ length (encode_items spaced numbers.now))
        × (out.new ≡ overwrite (encode_items spaced numbers.now) out.old) }
{
    let mut at: usize = 0;
    // One loop for all lists that are written would take each item's promise as a predicate of its closure, which is no plainer.
    for &x in numbers {
        at += put_spaced(&mut out[at..], x);
    }
    at
}

// Writes the rest of a line, numbers and a line feed: how many bytes.
pub fn put_line_rest(out: &mut [u8], numbers: &[u32]) -> usize
    requires { length (line_rest numbers.now) ≤ length out.old }
    ensures { (result ≡ length (line_rest numbers.now))
        × (out.new ≡ overwrite (line_rest numbers.now) out.old) }
{
    let n = put_numbers(out, numbers);
    out[n] = b'\n';
    n + 1
}

// ---- reading

// Whether every byte is a digit.
fn all_digits(s: &[u8]) -> bool
    ensures { result ≡ all is_digit s.now }
{
    s.iter().all(u8::is_ascii_digit)
}

// Whether s is a number in decimal without leading zeros.
fn is_decimal(s: &[u8]) -> bool
    ensures { result ≡ is_decimal s.now }
{
    let n = s.len();
    all_digits(s) & ((n == 1) | ((1 < n) & (b'0' < wire::byte_at(s, 0))))
}

// The number that digits make, none where it is above 255, however many they are: none behind makes it smaller.
pub fn value(s: &[u8]) -> Option<u8>
    ensures { result ≡ byte_value (value_from 0 s.now) }
{
    let mut x: u8 = 0;
    for &d in s {
        x = x.checked_mul(10)?.checked_add(d % 16)?;
    }
    Some(x)
}

// A number that was read: its value, none where it is above 255, and how many bytes it has together with the byte that ends it; none of
// these where no number stands. The value is then what the bytes ahead of that byte make, all of them where it is missing.
#[derive(Clone, Copy)]
pub struct Number {
    pub value: Option<u8>,
    pub length: Option<usize>,
}

// Reads a number at the front of s that the byte `end` ends.
pub fn read_number(s: &[u8], end: u8) -> Number
    ensures { result ≡ number_read end s.now }
{
    let digits = wire::take(s, wire::index_of(s, end));
    let n = digits.len();
    let stands = (n < s.len()) & is_decimal(digits);
    Number {
        value: value(digits),
        length: stands.then_some(n + 1),
    }
}
