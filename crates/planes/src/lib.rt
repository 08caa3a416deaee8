// Words with a bit for each of 64 messages: sets of messages, and planes, which hold the labels.
#![tactic(auto)]

ghost use Rattle.std.specs.Prelude.{◌≡◌, ◌+◌, ◌-◌, ◌*◌, ◌^◌, ◌<◌, ◌≤◌, [], if◌then◌else◌, nat_eq, nat_le};
ghost use Rattle.label.specs.Label.{bit};
ghost use Rattle.planes.specs.Planes.{without_lowest, Bits, behind_gap, Fits, ahead, planes_of};

// ---- sets

// The first n messages.
pub fn below(n: usize) -> u64
    requires { n ≤ 64 }
    ensures { result ≡ 2 ^ n - 1 }
{
    if n == 0 { 0 } else { u64::MAX >> (64 - n) }
}

// A set without its oldest message.
pub fn rest(set: u64) -> u64
    ensures { result ≡ without_lowest set }
{
    set & set.wrapping_sub(1)
}

// ---- planes: bit i of plane b is bit b of the label of message i

// That b is below 4 is asked for and is no type: who calls counts b from 0 to 3, and a type would be made anew at each step.

// Bit b of a label.
fn bit_of(label: u8, b: usize) -> u64
    requires { b < 4 }
    ensures { result ≡ bit b label }
{
    ((label as u64) >> b) % 2
}

// All bits are bit b of the label. It is written without a branch, and so is what uses it.
fn spread(label: u8, b: usize) -> u64
    requires { b < 4 }
    ensures { Bits (λ i. bit b label) result }
{
    0u64.wrapping_sub(bit_of(label, b))
}

// The messages whose bit in plane b is not the label's.
pub fn unlike(plane: u64, label: u8, b: usize) -> u64
    requires { b < 4 }
    ensures { Bits (λ i. (if nat_eq (bit i plane) (bit b label) then 0 else 1)) result }
{
    plane ^ spread(label, b)
}

// The messages that have the bit of plane b where the label has not.
pub fn above(plane: u64, label: u8, b: usize) -> u64
    requires { b < 4 }
    ensures { Bits (λ i. (if nat_le (bit i plane) (bit b label) then 0 else 1)) result }
{
    plane & !spread(label, b)
}

// The plane with the label's bit b as bit n, whatever that was.
pub fn with_bit(plane: u64, n: usize, label: u8, b: usize) -> u64
    requires { (n < 64) × (b < 4) }
    ensures { Bits (λ i. (if nat_eq i n then bit b label else bit i plane)) result }
{
    let one: u64 = 1 << n;
    plane ^ (unlike(plane, label, b) & one)
}

// The plane without bit k: those behind it move down by one.
pub fn without_bit(plane: u64, k: usize) -> u64
    requires { k < 64 }
    ensures { Bits (λ i. bit (behind_gap k i) plane) result }
{
    let one: u64 = 1 << k;
    let low = one - 1;
    (plane & low) | ((plane >> 1) & !low)
}

// ---- the four planes of labels, gathered from the last label to the first

// Plane b with the label's bit as bit 0: its own go up by one place.
fn bit_ahead(plane: u64, label: u8, b: usize) -> u64
    requires { (plane < 2 ^ 63) × (b < 4) }
    ensures { result ≡ bit b label + 2 * plane }
{
    plane * 2 + bit_of(label, b)
}

// Four words and not an array, which would lie in memory.
#[derive(Clone, Copy)]
pub struct LabelPlanes {
    pub first: u64,
    pub second: u64,
    pub third: u64,
    pub fourth: u64,
}

impl LabelPlanes {
    // The planes of no labels.
    #[tactic(auto, unfolding(crate::specs::Planes::planes_of))]
    pub fn none() -> LabelPlanes
        ensures { result ≡ planes_of [] }
    {
        LabelPlanes {
            first: 0,
            second: 0,
            third: 0,
            fourth: 0,
        }
    }

    // The planes with a label ahead of theirs. All four go in and out by value, so that they stay in registers.
    pub fn ahead(self, label: u8) -> LabelPlanes
        requires { Fits 63 self }
        ensures { result ≡ ahead label self }
    {
        LabelPlanes {
            first: bit_ahead(self.first, label, 0),
            second: bit_ahead(self.second, label, 1),
            third: bit_ahead(self.third, label, 2),
            fourth: bit_ahead(self.fourth, label, 3),
        }
    }
}
