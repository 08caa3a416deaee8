// The image of all tasks: its layout, and its parts.
#![tactic(auto)]

ghost use Rattle.std.specs.Prelude.{◌<◌, ◌≤◌, ◌≡◌};
ghost use Rattle.machine.specs.Valid.{is_program_length};
ghost use Rattle.image.specs.Format.{task_size};
ghost use Rattle.image.specs.Record.{task_of};
ghost use Rattle.image.specs.Image.{version_of, program_length, program_of, turn_slot_of, slots_part, record_length, record_of, behind, skip};
ghost use Rattle.image.specs.Inner.{clearance_width};

// ---- the layout: where the fields begin, in an image and in a record, and the size of a message

pub const PROGRAM_AT: usize = 3;

pub const KIND_AT: usize = 0;

pub const LABEL_AT: usize = 1;

pub const CLEARANCE_AT: usize = 2;

// Where the fields behind the clearance begin if it has no byte; else each begins `clearance_width` further on.
pub const SPARE_AT: usize = 2;

pub const PC_AT: usize = 3;

pub const REGISTERS_AT: usize = 5;

const MAILBOX_AT: usize = 37;

pub const MESSAGE_SIZE: usize = 6;

// The sender of a message that the host posted, and the highest of all.
pub const HOST: u8 = 16;

// How many bytes the clearance has in an image of this version, a number and no enum: all that is read here is told of every first byte.
pub fn clearance_width(version: u8) -> usize
    ensures { (result ≡ clearance_width version) × (result ≤ 1) }
{
    if version < 2 { 0 } else { 1 }
}

// How many bytes a task has ahead of its messages, in an image of this version.
#[tactic(auto, using(crate::proofs::Offsets::task_size_lem))]
pub fn task_size(version: u8) -> usize
    ensures { (result ≡ task_size version) × (result ≤ 38) }
{
    MAILBOX_AT + clearance_width(version)
}

// The clearance in a record, 15 where it has no byte.
pub fn clearance(version: u8, task: &[u8]) -> u8
    ensures { result ≡ (task_of version task.now).clearance }
{
    if version < 2 {
        15
    } else {
        wire::byte_at(task, CLEARANCE_AT)
    }
}

// ---- the parts of an image

// Where a part of an image stands. Both are 0 where there is none, as the C function `rithennaw_record` tells them: no Option.
#[derive(Clone, Copy)]
pub struct Extent {
    pub start: usize,
    pub length: usize,
}

// The version, by which everything else is read.
#[tactic(auto, unfolding(crate::specs::Image::version_of))]
pub fn version(image: &[u8]) -> u8
    ensures { result ≡ version_of image.now }
{
    wire::byte_at(image, 0)
}

// A multiple of 4 from 4 to 1,024.
#[tactic(auto, unfolding(machine::specs::Valid::is_program_length))]
pub fn is_program_length(l: usize) -> bool
    ensures { result ≡ is_program_length l }
{
    (l % 4 == 0) & (4 <= l) & (l <= 1024)
}

// The length of the program, as its field says it.
#[tactic(auto, using(crate::proofs::Offsets::program_length_at))]
pub fn program_length(image: &[u8]) -> usize
    ensures { (result ≡ program_length image.now) × (result < 65536) }
{
    wire::decode_u16(wire::drop(image, 1))
}

// The program's bytes.
pub fn program(image: &[u8]) -> &[u8]
    ensures { result.now ≡ program_of image.now }
{
    wire::take(wire::drop(image, PROGRAM_AT), program_length(image))
}

// The slot whose turn is next.
pub fn turn_slot(image: &[u8]) -> u8
    ensures { result ≡ turn_slot_of image.now }
{
    wire::byte_at(image, PROGRAM_AT + program_length(image))
}

// The bytes from slot 0 on.
#[tactic(auto, unfolding(crate::specs::Image::slots_part))]
pub fn slots_part(image: &[u8]) -> &[u8]
    ensures { result.now ≡ slots_part image.now }
{
    wire::drop(image, PROGRAM_AT + program_length(image) + 1)
}

// The length of the record at the front of b, as its field says it.
#[tactic(auto, unfolding(crate::specs::Image::record_length))]
pub fn record_length(b: &[u8]) -> usize
    ensures { (result ≡ record_length b.now) × (result < 65536) }
{
    wire::decode_u16(b)
}

// The record at the front of b, without its length.
pub fn front_record(b: &[u8]) -> &[u8]
    ensures { result.now ≡ record_of b.now }
{
    wire::take(wire::drop(b, 2), record_length(b))
}

// The bytes behind the slot at the front of b.
pub fn behind(b: &[u8]) -> &[u8]
    ensures { result.now ≡ behind b.now }
{
    wire::drop(b, 2 + record_length(b))
}

// The bytes behind the first k slots of b.
#[tactic(auto, using(crate::proofs::Walk::skip_none, crate::proofs::Walk::skip_next))]
pub fn skip(b: &[u8], k: usize) -> &[u8]
    ensures { result.now ≡ skip k b.now }
{
    let mut rest = b;
    for _slot in 0..k {
        rest = behind(rest);
    }
    rest
}
