// Snapshots: the table written as an image for an observer.
#![tactic(auto)]

ghost use Rattle.std.specs.Prelude.{◌+◌, ◌≤◌, ◌<◌, ◌≡◌, [], ◌∷◌, ◌++◌, length};
ghost use Rattle.wire.specs.Numbers.{encode_number};
ghost use Rattle.wire.specs.Items.{encode_items};
ghost use Rattle.wire.specs.Output.{overwrite};
ghost use Rattle.wire.specs.Inner.{written};
ghost use Rattle.label.specs.Label.{flows};
ghost use Rattle.machine.specs.State.{slot_at};
ghost use Rattle.machine.specs.View.{view_task};
ghost use Rattle.image.specs.Format.{task_size};
ghost use Rattle.image.specs.Record.{message_bytes};
ghost use Rattle.image.specs.Image.{ahead_bytes};
ghost use Rattle.image.specs.Inner.{head_bytes, clearance_width};
ghost use Rattle.table.specs.Table.{slots_in};
ghost use Rattle.table.specs.Change.{task_at, Used, message_at};
ghost use Rattle.snapshot.specs.Writing.{snapshot_bytes, is_shown, head_numbers};
ghost use Rattle.snapshot.specs.Writing.{seen_message, seen_mailbox, seen_task, seen_slot, seen_slots};

use machine::{Message, SlotNumber};
use table::Table;

// ---- what an observer sees

// Whether the observer sees a task in a slot.
pub fn is_shown(table: &Table, slot: SlotNumber, observer: u8) -> bool
    ensures { result ≡ is_shown observer (slot_at (slots_in table.now) slot.number) }
{
    table.is_used(slot) && label::flows(table.label(slot), observer)
}

// How many messages of a mailbox the observer sees.
pub fn mail_shown(table: &Table, slot: SlotNumber, observer: u8) -> usize
    requires { Used slot.number (slots_in table.now) }
    ensures { (result ≡ length (view_task (λ l. flows l observer) (task_at (slots_in table.now) slot.number)).mailbox) × (result ≤ 64) }
{
    search::find(table, slot, observer).receivable
}

// ---- a table as an observer sees it, in an image of a version

#[derive(Clone, Copy)]
struct View<'a> {
    table: &'a Table,
    version: u8,
    observer: u8,
}

// How many bytes the length of a record has, which stands ahead of it.
const LENGTH_SIZE: usize = 2;

// A used slot is asked for, as the table asks for it, and is no type: the one test that makes it, `is_shown`, tells more than that.
impl View<'_> {
    // ---- sizes in bytes, known before the first byte is written

    // How many bytes of a mailbox.
    fn mailbox_size(&self, slot: SlotNumber) -> usize
        requires { Used slot.number (slots_in self.now.table.now) }
        ensures { (result ≡ length (seen_mailbox self.now slot.number)) × (result ≤ 384) }
    {
        image::MESSAGE_SIZE * mail_shown(self.table, slot, self.observer)
    }

    // How many bytes of a slot, with the length in front.
    fn slot_size(&self, slot: SlotNumber) -> usize
        ensures { (result ≡ length (seen_slot self.now slot.number)) × (result ≤ 424) }
    {
        if is_shown(self.table, slot, self.observer) {
            LENGTH_SIZE + image::task_size(self.version) + self.mailbox_size(slot)
        } else {
            LENGTH_SIZE
        }
    }

    // How many bytes of all slots.
    fn slots_size(&self) -> usize
        ensures { (result ≡ length (seen_slots self.now)) × (result ≤ 6784) }
    {
        let mut n = 0;
        for number in 0..16 {
            n += self.slot_size(SlotNumber { number });
        }
        n
    }

    // ---- write

    // Writes the message, where the observer sees it: how many bytes.
    fn write_message(&self, out: &mut [u8], slot: SlotNumber, i: usize) -> usize
        requires { (i < length (task_at (slots_in self.now.table.now) slot.number).mailbox)
            × (length (seen_message self.now slot.number i) ≤ length out.old) }
        ensures { (result ≡ length (seen_message self.now slot.number i)) × (result ≤ 6)
            × (out.new ≡ overwrite (seen_message self.now slot.number i) out.old) }
    {
        let label = self.table.message_label(slot, i);
        if label::flows(label, self.observer) {
            let message = Message {
                label,
                sender: self.table.message_sender(slot, i),
                value: self.table.message_value(slot, i),
            };
            put_message(out, message);
            image::MESSAGE_SIZE
        } else {
            0
        }
    }

    // Writes the messages of a mailbox that the observer sees, each behind the one before: a loop of its own, as text's `put_numbers`.
    fn write_mailbox(&self, out: &mut [u8], slot: SlotNumber)
        requires { Used slot.number (slots_in self.now.table.now) × (length (seen_mailbox self.now slot.number) ≤ length out.old) }
        ensures { out.new ≡ overwrite (seen_mailbox self.now slot.number) out.old }
    {
        let mut at = 0;
        for i in 0..self.table.mailbox_length(slot) {
            at += self.write_message(&mut out[at..], slot, i);
        }
    }

    // Writes the eight registers of a task.
    fn write_registers(&self, out: &mut [u8], slot: SlotNumber)
        requires { (32 ≤ length out.old) × Used slot.number (slots_in self.now.table.now) }
        ensures { out.new
            ≡ overwrite (encode_items (encode_number 4) (task_at (slots_in self.now.table.now) slot.number).registers) out.old }
    {
        for a in 0..8 {
            wire::encode_u32(&mut out[4 * a..], self.table.register(slot, a));
        }
    }

    // Writes the length of a record and the fields ahead of the registers. Where the clearance has no byte, the spare is stored over it.
    fn write_fields(&self, out: &mut [u8], slot: SlotNumber, size: usize)
        requires { Used slot.number (slots_in self.now.table.now) × (7 + clearance_width self.now.version ≤ length out.old) }
        ensures { out.new
            ≡ overwrite
            (encode_number 2 size ++ head_bytes self.now.version (head_numbers (task_at (slots_in self.now.table.now) slot.number)))
            out.old }
    {
        let width = image::clearance_width(self.version);
        let clearance = self.table.clearance(slot);
        let spare = self.table.spare(slot);
        wire::encode_u16(out, size);
        out[2] = self.table.kind(slot);
        out[3] = self.table.label(slot);
        out[4] = clearance;
        out[4 + width] = spare;
        wire::encode_u16(&mut out[5 + width..], self.table.pc(slot) as usize);
    }

    // Writes a task that the observer sees: the record's length, the fields, the registers and the mailbox. How many bytes.
    fn write_task(&self, out: &mut [u8], slot: SlotNumber) -> usize
        requires { Used slot.number (slots_in self.now.table.now)
            × (2 + task_size self.now.version + length (seen_mailbox self.now slot.number) ≤ length out.old) }
        ensures { (result ≡ length (seen_task self.now slot.number)) × (result ≤ 424)
            × (out.new ≡ overwrite (seen_task self.now slot.number) out.old) }
    {
        let n = self.mailbox_size(slot);
        let size = image::task_size(self.version);
        let registers = LENGTH_SIZE + image::REGISTERS_AT + image::clearance_width(self.version);
        self.write_fields(out, slot, size + n);
        self.write_registers(&mut out[registers..], slot);
        self.write_mailbox(&mut out[LENGTH_SIZE + size..], slot);
        LENGTH_SIZE + size + n
    }

    // Writes a slot's record behind its length; where the observer sees no task, the slot is written as unused. How many bytes.
    fn write_slot(&self, out: &mut [u8], slot: SlotNumber) -> usize
        requires { length (seen_slot self.now slot.number) ≤ length out.old }
        ensures { (result ≡ length (seen_slot self.now slot.number)) × (result ≤ 424)
            × (out.new ≡ overwrite (seen_slot self.now slot.number) out.old) }
    {
        if is_shown(self.table, slot, self.observer) {
            self.write_task(out, slot)
        } else {
            wire::encode_u16(out, 0);
            LENGTH_SIZE
        }
    }

    // Writes the sixteen slots, each into the part of the output that begins where the one before it ends: a loop of its own too.
    fn write_slots(&self, out: &mut [u8])
        requires { length (seen_slots self.now) ≤ length out.old }
        ensures { out.new ≡ overwrite (seen_slots self.now) out.old }
    {
        let mut at = 0;
        for number in 0..16 {
            at += self.write_slot(&mut out[at..], SlotNumber { number });
        }
    }
}

// The six bytes of a message.
fn put_message(out: &mut [u8], message: Message)
    requires { 6 ≤ length out.old }
    ensures { out.new ≡ overwrite (message_bytes message) out.old }
{
    out[0] = message.label;
    out[1] = message.sender;
    wire::encode_u32(&mut out[2..], message.value);
}

// Writes what stands ahead of the slots: version, program length, program, turn slot.
fn write_head(out: &mut [u8], version: u8, program: &[u8], turn: u8)
    requires { 3 + length program.now + 1 ≤ length out.old }
    ensures { out.new ≡ overwrite (ahead_bytes version program.now turn) out.old }
{
    wire::put_byte(out, version);
    wire::encode_u16(&mut out[1..], program.len());
    wire::copy(&mut out[image::PROGRAM_AT..], program);
    wire::put_byte(&mut out[image::PROGRAM_AT + program.len()..], turn);
}

// Writes the table's tasks as the observer sees them, with the image's version and program, as an image: its length, and its
// bytes where the output has room for them all.
pub fn write(out: &mut [u8], table: &Table, image: &[u8], turn: u8, observer: u8) -> usize
    ensures { (result ≡ length (snapshot_bytes table.now image.now turn observer))
        × (out.new ≡ written (snapshot_bytes table.now image.now turn observer) out.old) }
{
    let version = image::version(image);
    let program = image::program(image);
    let view = View {
        table,
        version,
        observer,
    };
    let head = image::PROGRAM_AT + program.len() + 1;
    let length = head + view.slots_size();
    if out.len() < length {
        return length;
    }
    write_head(out, version, program, turn);
    view.write_slots(&mut out[head..]);
    length
}
