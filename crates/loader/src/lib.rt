// Loading: the tasks of an accepted image put into the table.
// Each function takes the table and a slot of it: what says both at once would borrow the table, which it changes.
#![tactic(auto)]

ghost use Rattle.std.specs.Prelude.{◌/◌, ◌≤◌, ◌<◌, ◌≡◌, length, set};
ghost use Rattle.planes.specs.Planes.{planes_of};
ghost use Rattle.machine.specs.State.{used, with_mailbox};
ghost use Rattle.image.specs.Format.{message_size};
ghost use Rattle.image.specs.Record.{mailbox_of, task_of, slot_of};
ghost use Rattle.image.specs.Image.{slots_of, state_of};
ghost use Rattle.image.specs.Refusal.{image_number};
ghost use Rattle.table.specs.Table.{mailbox_room, slots_in};
ghost use Rattle.table.specs.Change.{task_at, Used, change};
ghost use Rattle.loader.specs.Loading.{LabelsFit, Loadable, LoadableSlot, LoadableSlots, registers_set, mail_set, labels_of};

use machine::SlotNumber;
use planes::LabelPlanes;
use table::Table;

// Sets the eight registers of the task in a slot.
fn load_registers(table: &mut Table, slot: SlotNumber, registers: &[u8])
    requires { 32 ≤ length registers.now }
    ensures { slots_in table.new ≡ change slot.number (registers_set 8 registers.now) (slots_in table.old) }
{
    for a in 0..8 {
        table.set_register(slot, a, wire::decode_u32(&registers[4 * a..]));
    }
}

// The planes of the messages' labels, which are gathered from the last to the first. The loop has an index, by which it is faster than by
// `chunks_exact` and `rev` (docs/BENCHMARKS.md).
fn label_planes(mailbox: &[u8]) -> LabelPlanes
    requires { length mailbox.now / message_size ≤ mailbox_room }
    ensures { result ≡ planes_of (labels_of mailbox.now) }
{
    let mut gathered = LabelPlanes::none();
    for i in (0..mailbox.len() / image::MESSAGE_SIZE).rev() {
        gathered = gathered.ahead(mailbox[image::MESSAGE_SIZE * i]);
    }
    gathered
}

// Sets the senders and the values of the messages in a slot.
fn load_mail(table: &mut Table, slot: SlotNumber, mailbox: &[u8])
    requires { length mailbox.now / message_size ≤ length (task_at (slots_in table.old) slot.number).mailbox }
    ensures { slots_in table.new
        ≡ change slot.number (mail_set (length mailbox.now / message_size) mailbox.now) (slots_in table.old) }
{
    for (i, message) in mailbox.chunks_exact(image::MESSAGE_SIZE).enumerate() {
        let value = wire::decode_u32(&message[2..]);
        table.set_mail(slot, i, message[1], value);
    }
}

// The task in a slot gets the messages as its mailbox. Labels go ahead of the rest, so that each plane is stored once.
fn load_mailbox(table: &mut Table, slot: SlotNumber, mailbox: &[u8])
    requires { Used slot.number (slots_in table.old) × (length mailbox.now / message_size ≤ mailbox_room) × LabelsFit mailbox.now }
    ensures { slots_in table.new ≡ change slot.number (with_mailbox (mailbox_of mailbox.now)) (slots_in table.old) }
{
    let count = mailbox.len() / image::MESSAGE_SIZE;
    table.open_mailbox(slot, count, label_planes(mailbox));
    load_mail(table, slot, mailbox);
}

// Puts the task of a record into a slot. The version goes beside a record's bytes, as in the definitions `task_of` and `slot_of`.
fn load_task(table: &mut Table, slot: SlotNumber, version: u8, bytes: &[u8])
    requires { Loadable version bytes.now }
    ensures { slots_in table.new ≡ set (slots_in table.old) slot.number (used (task_of version bytes.now)) }
{
    let width = image::clearance_width(version);
    let pc = wire::decode_u16(&bytes[image::PC_AT + width..]) as u32;
    table.put_task(
        slot,
        bytes[image::KIND_AT],
        bytes[image::LABEL_AT],
        image::clearance(version, bytes),
        bytes[image::SPARE_AT + width],
        pc,
    );
    load_registers(table, slot, &bytes[image::REGISTERS_AT + width..]);
    load_mailbox(table, slot, &bytes[image::task_size(version)..]);
}

// Puts what a record holds into a slot: no bytes are an unused slot.
fn load_slot(table: &mut Table, slot: SlotNumber, version: u8, bytes: &[u8])
    requires { LoadableSlot version bytes.now }
    ensures { slots_in table.new ≡ set (slots_in table.old) slot.number (slot_of version bytes.now) }
{
    if bytes.is_empty() {
        table.clear(slot);
    } else {
        load_task(table, slot, version, bytes);
    }
}

// Loads slots 0 to 15.
fn load_slots(table: &mut Table, version: u8, slots: &[u8])
    requires { LoadableSlots version slots.now }
    ensures { slots_in table.new ≡ slots_of version 16 slots.now }
{
    let mut rest = slots;
    for number in 0..16 {
        load_slot(
            table,
            SlotNumber { number },
            version,
            image::front_record(rest),
        );
        rest = image::behind(rest);
    }
}

// Loads an accepted image into the table.
pub fn load(table: &mut Table, image: &[u8])
    requires { image_number image.now ≡ 0 }
    ensures { slots_in table.new ≡ (state_of image.now).slots }
{
    load_slots(table, image::version(image), image::slots_part(image));
}
