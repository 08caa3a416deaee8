// Bytes: numbers read from the front of a part and written at the front of one. Definitions in specs/ and laws in
// proofs/ are cited by every other crate.
#![tactic(auto)]

ghost use Rattle.std.specs.Prelude.{◌<◌, ◌≤◌, min, ◌≡◌, [], ◌∷◌, eqb, length, get_or, take, drop};
ghost use Rattle.wire.specs.Numbers.{decode_number, encode_number};
ghost use Rattle.wire.specs.Lists.{first_index};
ghost use Rattle.wire.specs.Inner.{written, same};
ghost use Rattle.wire.specs.Slices.{offset_by};

// Byte i of s, and 0 past its end.
pub fn byte_at(s: &[u8], i: usize) -> u8
    ensures { result ≡ get_or s.now i 0 }
{
    s.get(i).copied().unwrap_or(0)
}

// The first n bytes of s, or all of it where it has fewer.
pub fn take(s: &[u8], n: usize) -> &[u8]
    ensures { (result.now ≡ take n s.now) × (result.ref_ptr ≡ s.entry.ref_ptr) }
{
    &s[..n.min(s.len())]
}

// The bytes of s behind its first n, none where it has no more.
pub fn drop(s: &[u8], n: usize) -> &[u8]
    ensures { (result.now ≡ drop n s.now)
        × (result.ref_ptr ≡ offset_by (min n (length s.now)) s.entry.ref_ptr) }
{
    &s[n.min(s.len())..]
}

// Whether s and t are the same bytes: the library's comparison, which this says to be definition `same`.
pub fn same(s: &[u8], t: &[u8]) -> bool
    ensures { result ≡ same s.now t.now }
{
    s == t
}

// The index of the first byte x of s, its length where it has none, as `first_index` says it: what stands ahead of x is then all of s.
pub fn index_of(s: &[u8], x: u8) -> usize
    ensures { result ≡ first_index (λ y. eqb y x) s.now }
{
    s.iter().position(|&y| y == x).unwrap_or(s.len())
}

// The number in the first two bytes of s; bytes past its end count as 0. Where both are there, one test says so.
pub fn decode_u16(s: &[u8]) -> usize
    ensures { (result ≡ decode_number 2 s.now) × (result < 65536) }
{
    if 2 <= s.len() {
        u16::from_be_bytes([s[0], s[1]]) as usize
    } else {
        (byte_at(s, 0) as usize) * 256
    }
}

// The number in the first four bytes of s. It asks for them and pads nothing, so it shares no more with `decode_u16` than `from_be_bytes`.
pub fn decode_u32(s: &[u8]) -> u32
    requires { 4 ≤ length s.now }
    ensures { result ≡ decode_number 4 s.now }
{
    u32::from_be_bytes([s[0], s[1], s[2], s[3]])
}

// Copies a source to the front of an output that has room for it: every write is this one. Byte by byte, since `copy_from_slice` has the
// archive call memmove, which it needs for nothing else.
pub fn copy(out: &mut [u8], source: &[u8])
    ensures { out.new ≡ written source.now out.old }
{
    let n = source.len();
    if n <= out.len() {
        for i in 0..n {
            out[i] = source[i];
        }
    }
}

// Writes one byte at the front of an output that has room for it.
pub fn put_byte(out: &mut [u8], x: u8)
    ensures { out.new ≡ written (x ∷ []) out.old }
{
    copy(out, &[x]);
}

// Writes the low two bytes of x at the front of an output that has room for them.
pub fn encode_u16(out: &mut [u8], x: usize)
    ensures { out.new ≡ written (encode_number 2 x) out.old }
{
    copy(out, &((x & 0xffff) as u16).to_be_bytes());
}

// Writes the four bytes of x at the front of an output that has room for them.
pub fn encode_u32(out: &mut [u8], x: u32)
    ensures { out.new ≡ written (encode_number 4 x) out.old }
{
    copy(out, &x.to_be_bytes());
}
