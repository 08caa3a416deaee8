// Why an image is refused, and what is read of an accepted one alone: each slot's record as the part that holds it.
#![tactic(auto)]

ghost use Rattle.std.specs.Prelude.{◌≡◌};
ghost use Rattle.wire.specs.Slices.{offset_by};
ghost use Rattle.instruction.specs.Program.{count};
ghost use Rattle.machine.specs.Limits.{highest_kind};
ghost use Rattle.machine.specs.Valid.{mail_in_range, fields_in_range, spares_unused};
ghost use Rattle.image.specs.Record.{task_of, slot_of};
ghost use Rattle.image.specs.Image.{slots_of};
ghost use Rattle.refusal.specs.Refusal.{number};
ghost use Rattle.image.specs.Refusal.{version_number, instructions_number, program_number, turn_slot_number};
ghost use Rattle.image.specs.Refusal.{is_record_length, length_number, record_number, slot_number, slots_number};
ghost use Rattle.image.specs.Refusal.{tail_number, estate_number, image_number};
ghost use Rattle.image.specs.Inner.{from_slot};
ghost use Rattle.image.specs.Part.{record_part, record_extent};

use machine::{Kind, SlotNumber};
use refusal::Refusal;

// ---- what is wrong, front to back

#[tactic(auto, unfolding(image::specs::Refusal::version_number))]
fn check_version(image: &[u8]) -> Result<(), Refusal>
    ensures { number result ≡ version_number image.now }
{
    if image.is_empty() {
        return Err(Refusal::Short);
    }
    let version = image::version(image);
    if (1 <= version) & (version <= 2) {
        Ok(())
    } else {
        Err(Refusal::Version)
    }
}

// The instructions of a program's bytes.
#[tactic(auto, using(image::proofs::Refusal::instructions_number_lem))]
pub fn check_instructions(program: &[u8]) -> Result<(), Refusal>
    ensures { number result ≡ instructions_number (count program.now) program.now }
{
    if instruction::all_legal(program) {
        Ok(())
    } else {
        Err(Refusal::Instruction)
    }
}

#[tactic(auto, unfolding(image::specs::Refusal::program_number))]
fn check_program(image: &[u8]) -> Result<(), Refusal>
    ensures { number result ≡ program_number image.now }
{
    if image.len() < image::PROGRAM_AT {
        return Err(Refusal::Short);
    }
    let l = image::program_length(image);
    if image::is_program_length(l) {
        if image.len() < image::PROGRAM_AT + l {
            return Err(Refusal::Short);
        }
        check_instructions(image::program(image))
    } else {
        Err(Refusal::ProgramLength)
    }
}

#[tactic(auto, unfolding(image::specs::Refusal::turn_slot_number))]
fn check_turn_slot(image: &[u8]) -> Result<(), Refusal>
    ensures { number result ≡ turn_slot_number image.now }
{
    if image.len() < image::PROGRAM_AT + image::program_length(image) + 1 {
        return Err(Refusal::Short);
    }
    if image::turn_slot(image) <= 15 {
        Ok(())
    } else {
        Err(Refusal::TurnSlot)
    }
}

// 0, or that of a task and k messages, k at most 64: 37 + 6 × k in version 1, 38 + 6 × k in version 2.
#[tactic(auto, using(image::proofs::Offsets::task_size_lem), unfolding(image::specs::Refusal::is_record_length))]
fn is_record_length(version: u8, l: usize) -> bool
    ensures { result ≡ is_record_length version l }
{
    let task = image::task_size(version);
    if l < task {
        l == 0
    } else {
        ((l - task) % image::MESSAGE_SIZE == 0) & ((l - task) / image::MESSAGE_SIZE <= 64)
    }
}

// The highest kind in an image of this version, a number as in the definition, since a byte is compared with it.
fn highest_kind(version: u8) -> u8
    ensures { result ≡ highest_kind version }
{
    if version < 2 {
        Kind::WithoutSpare as u8
    } else {
        Kind::StoppedByClearance as u8
    }
}

// Whether all messages are in range and no label has more than four. The loop has an index, by which it is faster than by `chunks_exact`
// (docs/BENCHMARKS.md). The version goes beside a record's bytes, as in the definition `task_of`. It stays a function of its own in the
// archive, so that its loop lies where tools/align puts it: within `check` a processor took a quarter more for it.
#[inline(never)]
#[tactic(auto, using(crate::proofs::Mail::by_message), unfolding(wire::specs::Items::decode_items))]
fn mail_in_range(version: u8, task: &[u8]) -> bool
    ensures { result ≡ mail_in_range (task_of version task.now).mailbox }
{
    let mailbox = wire::drop(task, image::task_size(version));
    let k = mailbox.len() / image::MESSAGE_SIZE;
    let mut counts: [u8; 16] = [0; 16];
    for j in 0..k {
        let label = mailbox[image::MESSAGE_SIZE * j] as usize;
        let sender = mailbox[image::MESSAGE_SIZE * j + 1];
        if (label <= 15) & (sender <= image::HOST) {
            let count = counts[label];
            if count < 4 {
                counts[label] = count + 1;
            } else {
                return false;
            }
        } else {
            return false;
        }
    }
    true
}

// The length of the slot at the front of b: that it is there, that it is one, and that its record is there.
#[tactic(auto, unfolding(image::specs::Refusal::length_number))]
fn check_length(version: u8, b: &[u8]) -> Result<(), Refusal>
    ensures { number result ≡ length_number version b.now }
{
    if b.len() < 2 {
        return Err(Refusal::Short);
    }
    let l = image::record_length(b);
    let admitted = is_record_length(version, l);
    let whole = 2 + l <= b.len();
    if !admitted {
        return Err(Refusal::RecordLength);
    }
    if whole { Ok(()) } else { Err(Refusal::Short) }
}

// What the bytes ahead of the slots say of an image, by which each slot is checked.
#[derive(Clone, Copy)]
struct Head {
    version: u8,
    instructions: usize,
}

impl Head {
    // Whether the fields ahead of the registers are in range and the label within the clearance, in this slot.
    #[tactic(auto, using(image::proofs::Offsets::task_at_lem))]
    fn fields_in_range(self, task: &[u8], slot: SlotNumber) -> bool
        ensures { result ≡ fields_in_range self.version slot.number self.instructions (task_of self.version task.now) }
    {
        let width = image::clearance_width(self.version);
        let kind = wire::byte_at(task, image::KIND_AT);
        let label = wire::byte_at(task, image::LABEL_AT);
        let clearance = image::clearance(self.version, task);
        let spare = wire::byte_at(task, image::SPARE_AT + width) as usize;
        let pc = wire::decode_u16(wire::drop(task, image::PC_AT + width));
        (Kind::Live as u8 <= kind)
            & (kind <= highest_kind(self.version))
            & (label <= 15)
            & (clearance <= 15)
            & label::is_subset(label, clearance)
            & (pc <= self.instructions)
            & (slot.number + spare <= 15)
    }

    // A task, which has no bytes in an unused slot: its fields, then its mail.
    fn check_record(self, task: &[u8], slot: SlotNumber) -> Result<(), Refusal>
        ensures { number result ≡ record_number self.version slot.number self.instructions (slot_of self.version task.now) }
    {
        if task.is_empty() {
            return Ok(());
        }
        if self.fields_in_range(task, slot) {
            if mail_in_range(self.version, task) {
                Ok(())
            } else {
                Err(Refusal::Mail)
            }
        } else {
            Err(Refusal::TaskField)
        }
    }

    // A slot, at the front of b: its length, then its record.
    #[tactic(auto, unfolding(image::specs::Refusal::slot_number))]
    fn check_slot(self, b: &[u8], slot: SlotNumber) -> Result<(), Refusal>
        ensures { number result ≡ slot_number self.version slot.number self.instructions b.now }
    {
        check_length(self.version, b)?;
        self.check_record(image::front_record(b), slot)
    }

    // The sixteen slots. Each begins where the one before it ends, which its own length tells, so what is left goes from step to step.
    #[tactic(auto, using(image::proofs::Walk::slots_first, image::proofs::Walk::slots_done))]
    fn check_slots(self, b: &[u8]) -> Result<(), Refusal>
        ensures { number result ≡ slots_number self.version 16 0 self.instructions b.now }
    {
        let mut rest = b;
        for slot in 0..16 {
            self.check_slot(rest, SlotNumber { number: slot })?;
            rest = image::behind(rest);
        }
        Ok(())
    }
}

#[tactic(auto, unfolding(image::specs::Refusal::tail_number))]
fn check_tail(image: &[u8]) -> Result<(), Refusal>
    ensures { number result ≡ tail_number image.now }
{
    if image::skip(image::slots_part(image), 16).is_empty() {
        Ok(())
    } else {
        Err(Refusal::Tail)
    }
}

// Whether no slot of a task's spare is used. `free_from` is the first slot above all slots seen and their spares.
#[tactic(auto, using(crate::proofs::Spares::by_slot))]
fn spares_unused(version: u8, b: &[u8]) -> bool
    ensures { result ≡ spares_unused (slots_of version 16 b.now) }
{
    let at = image::SPARE_AT + image::clearance_width(version);
    let mut rest = b;
    let mut free_from: usize = 0;
    for slot in 0..16 {
        let record = image::front_record(rest);
        if free_from <= slot || record.is_empty() {
            let spare = wire::byte_at(record, at) as usize;
            free_from = free_from.max(slot + spare + 1);
            rest = image::behind(rest);
        } else {
            return false;
        }
    }
    true
}

#[tactic(auto, unfolding(image::specs::Refusal::estate_number))]
fn check_estate(image: &[u8]) -> Result<(), Refusal>
    ensures { number result ≡ estate_number image.now }
{
    if spares_unused(image::version(image), image::slots_part(image)) {
        Ok(())
    } else {
        Err(Refusal::Estate)
    }
}

// Why an image is refused, if it is: what is met first, front to back.
#[tactic(auto, unfolding(image::specs::Refusal::image_number))]
pub fn check(image: &[u8]) -> Result<(), Refusal>
    ensures { number result ≡ image_number image.now }
{
    check_version(image)?;
    check_program(image)?;
    check_turn_slot(image)?;
    let head = Head {
        version: image::version(image),
        instructions: image::program(image).len() / 4,
    };
    head.check_slots(image::slots_part(image))?;
    check_tail(image)?;
    check_estate(image)
}

// ---- a slot's record

// The bytes from a slot on: none for a slot above 15 and a refused image.
#[tactic(auto, unfolding(image::specs::Inner::from_slot))]
fn from_slot(image: &[u8], slot: usize) -> &[u8]
    ensures { result.now ≡ from_slot image.now slot }
{
    if (slot <= 15) & check(image).is_ok() {
        image::skip(image::slots_part(image), slot)
    } else {
        wire::take(image, 0)
    }
}

// Where the record of a slot stands: start and length both 0 for an unused slot, a slot above 15 and a refused image, as
// `rithennaw_record` tells them to C.
#[tactic(auto, using(image::proofs::Image::told_none, image::proofs::Image::told_within, image::proofs::Image::told_some))]
pub fn record_extent(image: &[u8], slot: usize) -> image::Extent
    ensures { result ≡ record_extent image.now slot }
{
    let rest = from_slot(image, slot);
    let length = image::front_record(rest).len();
    if length == 0 {
        image::Extent {
            start: 0,
            length: 0,
        }
    } else {
        image::Extent {
            start: image.len() - rest.len() + 2,
            length,
        }
    }
}

// That record, as the part of the image that begins and ends there.
#[tactic(auto, using(image::proofs::Image::extent_told, image::proofs::Image::extent_begins))]
pub fn record(image: &[u8], slot: usize) -> &[u8]
    ensures { (result.now ≡ record_part image.now slot)
        × (result.ref_ptr ≡ offset_by (record_extent image.now slot).start image.entry.ref_ptr) }
{
    let extent = record_extent(image, slot);
    wire::take(wire::drop(image, extent.start), extent.length)
}
