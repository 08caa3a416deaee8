// The working storage of a call: sixteen slots of 84 words each, lent to the call and touched by slot and field only.
// Nothing is tested here that a caller knows: that a slot is used, a register one of the eight, a message in the mailbox, and a label one
// of four bits. These are asked for and are no types: one that says of a slot that it is used, or of a message that it is there, would
// borrow the table, which a turn changes; one for a register, a plane, a place in the ring or a label would be made anew at each use.
#![tactic(auto)]

ghost use Rattle.std.specs.Prelude.{◌+◌, ◌*◌, ◌<◌, ◌≤◌, ◌%◌, ◌≡◌, not, length, get_or, set, replicate};
ghost use Rattle.label.specs.Label.{bit};
ghost use Rattle.planes.specs.Planes.{label_from, plane_of};
ghost use Rattle.machine.specs.Limits.{highest_label};
ghost use Rattle.machine.specs.State.{unused, slot_at, has_live_task, is_unused, register, without_message};
ghost use Rattle.machine.specs.State.{with_label, with_spare, with_pc, with_register, with_mailbox};
ghost use Rattle.table.specs.Table.{start_word, ring_word, slot_words, mailbox_room, window, plane_in, ring_in, slots_in, held};
ghost use Rattle.table.specs.Words.{SlotChanged, SlotStored, cleared, Planed, WithBit, WithoutBit};
ghost use Rattle.table.specs.Words.{Moved, Mailed, down, up, With, Closed, Without};
ghost use Rattle.table.specs.Change.{Used, task_at, message_at, change, slot_with_kind, with_message, with_mail, opened, new_task};

use machine::{Kind, Message, SlotNumber};

const SLOTS: usize = 16;

const SLOT_WORDS: usize = 84;

// The words of the whole table.
const WORDS: usize = SLOTS * SLOT_WORDS;

// The words of the sixteen slots: one array of fixed size, in which word i of each slot stands beside word i of the others. It is Copy as an
// array is; no call makes a copy.
#[derive(Clone, Copy)]
pub struct Table {
    words: [u64; WORDS],
}

const MAILBOX_ROOM: usize = 64;

// A slot's words: one for each field, one for each plane of the messages' labels, and a ring of 64 for the messages. The word behind
// CLEARANCE is free.
const KIND: usize = 0;

const LABEL: usize = 1;

const SPARE: usize = 2;

const PC: usize = 3;

const REGISTERS: usize = 4;

const COUNT: usize = 12;

const START: usize = 13;

const CLEARANCE: usize = 14;

const PLANES: usize = 16;

const RING: usize = 20;

// The low byte of a word. It and `four` are a remainder each, which a form over the width would only hide.
fn byte(x: u64) -> u8
    ensures { result ≡ x % 256 }
{
    (x % 256) as u8
}

// The low four bytes of a word.
fn four(x: u64) -> u32
    ensures { result ≡ x % 4294967296 }
{
    (x % 4294967296) as u32
}

impl Table {
    // No tasks.
    pub fn new() -> Table
        ensures { slots_in result ≡ replicate 16 unused }
    {
        Table { words: [0; WORDS] }
    }

    // ---- words

    // Word i of the slot. Words i of all slots stand side by side, so a field of a slot is found without a multiplication.
    fn word(&self, slot: SlotNumber, i: usize) -> u64
        requires { i < slot_words }
        ensures { result ≡ get_or (window self.now.words slot.number) i 0 }
    {
        self.words[SLOTS * i + slot.number]
    }

    // Word i of the slot gets x.
    fn put(&mut self, slot: SlotNumber, i: usize, x: u64)
        requires { i < slot_words }
        ensures { SlotStored slot.number (λ w. set w i x) self.old.words self.new.words }
    {
        self.words[SLOTS * i + slot.number] = x;
    }

    // ---- reading

    // Each field has a function of its own, since what it promises names the field.

    // The kind of the task in the slot, 0 where the slot is unused: a number, as in `Task` (machine/specs/State.antt) and in the image.
    #[tactic(auto, using(crate::proofs::Slots::kind_read))]
    pub fn kind(&self, slot: SlotNumber) -> u8
        ensures { result ≡ (task_at (slots_in self.now) slot.number).kind }
    {
        byte(self.word(slot, KIND))
    }

    // The slot is used.
    #[tactic(auto, using(crate::proofs::Slots::unused_kind))]
    pub fn is_used(&self, slot: SlotNumber) -> bool
        ensures { result ≡ not (is_unused (slot_at (slots_in self.now) slot.number)) }
    {
        self.kind(slot) != 0
    }

    // The slot holds a live task.
    pub fn is_live(&self, slot: SlotNumber) -> bool
        ensures { result ≡ has_live_task (slot_at (slots_in self.now) slot.number) }
    {
        self.kind(slot) == Kind::Live as u8
    }

    // The label of the task in the slot.
    #[tactic(auto, using(crate::proofs::Slots::used_task), unfolding(crate::specs::Table::task_in))]
    pub fn label(&self, slot: SlotNumber) -> u8
        requires { Used slot.number (slots_in self.now) }
        ensures { result ≡ (task_at (slots_in self.now) slot.number).label }
    {
        byte(self.word(slot, LABEL))
    }

    // The clearance of the task in the slot.
    #[tactic(auto, using(crate::proofs::Slots::used_task), unfolding(crate::specs::Table::task_in))]
    pub fn clearance(&self, slot: SlotNumber) -> u8
        requires { Used slot.number (slots_in self.now) }
        ensures { result ≡ (task_at (slots_in self.now) slot.number).clearance }
    {
        byte(self.word(slot, CLEARANCE))
    }

    // The spare slots that the task in the slot has a right to.
    #[tactic(auto, using(crate::proofs::Slots::used_task), unfolding(crate::specs::Table::task_in))]
    pub fn spare(&self, slot: SlotNumber) -> u8
        requires { Used slot.number (slots_in self.now) }
        ensures { result ≡ (task_at (slots_in self.now) slot.number).spare }
    {
        byte(self.word(slot, SPARE))
    }

    // The index of the next instruction of the task in the slot.
    #[tactic(auto, using(crate::proofs::Slots::used_task), unfolding(crate::specs::Table::task_in))]
    pub fn pc(&self, slot: SlotNumber) -> u32
        requires { Used slot.number (slots_in self.now) }
        ensures { result ≡ (task_at (slots_in self.now) slot.number).pc }
    {
        four(self.word(slot, PC))
    }

    // Register a of the task in the slot.
    pub fn register(&self, slot: SlotNumber, a: usize) -> u32
        requires { Used slot.number (slots_in self.now) × (a < 8) }
        ensures { result ≡ register (task_at (slots_in self.now) slot.number) a }
    {
        four(self.word(slot, REGISTERS + a))
    }

    // How many messages are in the mailbox of the task in the slot.
    pub fn mailbox_length(&self, slot: SlotNumber) -> usize
        requires { Used slot.number (slots_in self.now) }
        ensures { (result ≡ length (task_at (slots_in self.now) slot.number).mailbox) × (result ≤ mailbox_room) }
    {
        (self.word(slot, COUNT) as usize).min(MAILBOX_ROOM)
    }

    // Where in the ring the oldest message of the slot lies.
    fn ring_start(&self, slot: SlotNumber) -> usize
        ensures { result ≡ get_or (window self.now.words slot.number) start_word 0 % mailbox_room }
    {
        (self.word(slot, START) % 64) as usize
    }

    // The word of message i in the slot.
    fn mail(&self, slot: SlotNumber, i: usize) -> u64
        requires { i < mailbox_room }
        ensures { result ≡ ring_in (get_or (window self.now.words slot.number) start_word 0) (window self.now.words slot.number) i }
    {
        self.word(slot, RING + (self.ring_start(slot) + i) % MAILBOX_ROOM)
    }

    // Plane b of the slot: its bit i is bit b of the label of message i.
    pub fn plane(&self, slot: SlotNumber, b: usize) -> u64
        requires { b < 4 }
        ensures { result ≡ plane_in (window self.now.words slot.number) b }
    {
        self.word(slot, PLANES + b)
    }

    // Bit b of the label of message i in the slot.
    fn label_bit(&self, slot: SlotNumber, b: usize, i: usize) -> u8
        requires { (b < 4) × (i < mailbox_room) }
        ensures { (result ≡ bit i (plane_in (window self.now.words slot.number) b)) × (result < 2) }
    {
        byte((self.plane(slot, b) >> i) % 2)
    }

    // The label of message i in the slot, the oldest first.
    #[tactic(auto, using(crate::proofs::Slots::mail_fits))]
    pub fn message_label(&self, slot: SlotNumber, i: usize) -> u8
        requires { i < length (task_at (slots_in self.now) slot.number).mailbox }
        ensures { result ≡ (message_at (slots_in self.now) slot.number i).label }
    {
        let high = self.label_bit(slot, 2, i) + 2 * self.label_bit(slot, 3, i);
        self.label_bit(slot, 0, i) + 2 * (self.label_bit(slot, 1, i) + 2 * high)
    }

    // The slot that sent message i in the slot.
    #[tactic(auto, using(crate::proofs::Slots::mail_fits, crate::proofs::Slots::message_read), unfolding(crate::specs::Table::message_in))]
    pub fn message_sender(&self, slot: SlotNumber, i: usize) -> u8
        requires { i < length (task_at (slots_in self.now) slot.number).mailbox }
        ensures { result ≡ (message_at (slots_in self.now) slot.number i).sender }
    {
        byte(self.mail(slot, i) / 4294967296)
    }

    // The value of message i in the slot.
    #[tactic(auto, using(crate::proofs::Slots::mail_fits, crate::proofs::Slots::message_read), unfolding(crate::specs::Table::message_in))]
    pub fn message_value(&self, slot: SlotNumber, i: usize) -> u32
        requires { i < length (task_at (slots_in self.now) slot.number).mailbox }
        ensures { result ≡ (message_at (slots_in self.now) slot.number i).value }
    {
        four(self.mail(slot, i))
    }

    // ---- changing a field: each has a function of its own here too

    // The task in the slot gets kind x; kind 0 takes it away. The slot has to be used: in an unused one a kind would be a task. x is a byte
    // and no `Kind`, since the promise of `set_kind` holds of every byte.
    pub fn set_kind(&mut self, slot: SlotNumber, x: u8)
        requires { Used slot.number (slots_in self.old) }
        ensures { slots_in self.new ≡ set (slots_in self.old) slot.number (slot_with_kind x (slot_at (slots_in self.old) slot.number)) }
    {
        self.put(slot, KIND, x as u64);
    }

    // The task in the slot gets label x.
    pub fn set_label(&mut self, slot: SlotNumber, x: u8)
        ensures { slots_in self.new ≡ change slot.number (with_label x) (slots_in self.old) }
    {
        self.put(slot, LABEL, x as u64);
    }

    // The task in the slot gets a right to x spare slots.
    pub fn set_spare(&mut self, slot: SlotNumber, x: u8)
        ensures { slots_in self.new ≡ change slot.number (with_spare x) (slots_in self.old) }
    {
        self.put(slot, SPARE, x as u64);
    }

    // The next instruction of the task in the slot is that at index x.
    pub fn set_pc(&mut self, slot: SlotNumber, x: u32)
        ensures { slots_in self.new ≡ change slot.number (with_pc x) (slots_in self.old) }
    {
        self.put(slot, PC, x as u64);
    }

    // Register a of the task in the slot gets x.
    pub fn set_register(&mut self, slot: SlotNumber, a: usize, x: u32)
        requires { a < 8 }
        ensures { slots_in self.new ≡ change slot.number (with_register a x) (slots_in self.old) }
    {
        self.put(slot, REGISTERS + a, x as u64);
    }

    // ---- changing the mailbox

    // Each plane of the slot becomes what `change` makes of it and of its number.
    fn change_planes<F: Fn(u64, usize) -> u64>(&mut self, slot: SlotNumber, change: F)
        requires { (x : _) → (b : _) → b < 4 → F.pre change x b }
        ensures { SlotChanged slot.number (Planed 4 (λ b x y. F.post change x b y)) self.old.words self.new.words }
    {
        for b in 0..4 {
            let x = change(self.plane(slot, b), b);
            self.put(slot, PLANES + b, x);
        }
    }

    // Each plane of the slot gets the label's bit as bit n. (`move`: a closure that borrows its numbers is other machine code.)
    fn mark(&mut self, slot: SlotNumber, n: usize, label: u8)
        requires { n < mailbox_room }
        ensures { SlotChanged slot.number (Planed 4 (WithBit n label)) self.old.words self.new.words }
    {
        self.change_planes(slot, move |plane, b| planes::with_bit(plane, n, label, b));
    }

    // The word of message i, there or not, gets a sender and a value.
    fn put_mail(&mut self, slot: SlotNumber, i: usize, sender: u8, value: u32)
        requires { i < mailbox_room }
        ensures { SlotChanged slot.number (Mailed i (sender * 4294967296 + value)) self.old.words self.new.words }
    {
        let at = (self.ring_start(slot) + i) % MAILBOX_ROOM;
        self.put(
            slot,
            RING + at,
            (sender as u64) * 4294967296 + (value as u64),
        );
    }

    // Message n is written behind those before it; the count is not.
    fn write_message(&mut self, slot: SlotNumber, n: usize, message: Message)
        requires { (n < mailbox_room) × (message.label ≤ highest_label) }
        ensures { SlotChanged slot.number (With n message) self.old.words self.new.words }
    {
        self.put_mail(slot, n, message.sender, message.value);
        self.mark(slot, n, message.label);
    }

    // The message joins the end of a mailbox that has room for it.
    pub fn append(&mut self, slot: SlotNumber, message: Message)
        requires { Used slot.number (slots_in self.old)
            × (length (task_at (slots_in self.old) slot.number).mailbox < mailbox_room)
            × (message.label ≤ highest_label) }
        ensures { slots_in self.new ≡ change slot.number (with_message message) (slots_in self.old) }
    {
        let n = self.word(slot, COUNT) as usize;
        self.write_message(slot, n, message);
        self.put(slot, COUNT, (n + 1) as u64);
    }

    // Bit k of each plane of the slot goes.
    fn unmark(&mut self, slot: SlotNumber, k: usize)
        requires { k < mailbox_room }
        ensures { SlotChanged slot.number (Planed 4 (WithoutBit k)) self.old.words self.new.words }
    {
        self.change_planes(slot, move |plane, _| planes::without_bit(plane, k));
    }

    // The word of message `from` is written over that of message `to`, both counted from a start of the ring.
    fn move_mail(&mut self, slot: SlotNumber, start: usize, from: usize, to: usize)
        requires { (start < mailbox_room) × (from < mailbox_room) × (to < mailbox_room) }
        ensures { SlotStored slot.number (λ w. set w (ring_word + (start + to) % mailbox_room) (ring_in start w from))
            self.old.words self.new.words }
    {
        let x = self.word(slot, RING + (start + from) % MAILBOX_ROOM);
        self.put(slot, RING + (start + to) % MAILBOX_ROOM, x);
    }

    // The messages behind message i, of n, move down by one. Each gets the place of the one before, so they go from the front, and those
    // of `move_up` from the back: the two are no one walk.
    fn move_down(&mut self, slot: SlotNumber, start: usize, i: usize, n: usize)
        requires { (start < mailbox_room) × (i < n) × (n ≤ mailbox_room) }
        ensures { SlotChanged slot.number (Moved start (down i n)) self.old.words self.new.words }
    {
        for k in i + 1..n {
            self.move_mail(slot, start, k, k - 1);
        }
    }

    // The messages ahead of message i move up by one.
    fn move_up(&mut self, slot: SlotNumber, start: usize, i: usize)
        requires { (start < mailbox_room) × (i < mailbox_room) }
        ensures { SlotChanged slot.number (Moved start (up i 0)) self.old.words self.new.words }
    {
        for k in (0..i).rev() {
            self.move_mail(slot, start, k, k + 1);
        }
    }

    // The word of message i, of n, goes from the ring: the shorter side moves.
    fn close_gap(&mut self, slot: SlotNumber, i: usize, n: usize)
        requires { (i < n) × (n ≤ mailbox_room) }
        ensures { SlotChanged slot.number (Closed i n) self.old.words self.new.words }
    {
        let start = self.ring_start(slot);
        if i + i < n {
            self.move_up(slot, start, i);
            self.put(slot, START, ((start + 1) % MAILBOX_ROOM) as u64);
        } else {
            self.move_down(slot, start, i, n);
        }
    }

    // The oldest message goes: the ring starts behind it.
    fn drop_first(&mut self, slot: SlotNumber, n: usize)
        requires { (0 < n) × (n ≤ mailbox_room) }
        ensures { SlotChanged slot.number (Without 0 n) self.old.words self.new.words }
    {
        let start = self.ring_start(slot);
        self.put(slot, START, ((start + 1) % MAILBOX_ROOM) as u64);
        self.unmark(slot, 0);
    }

    // Message i of n goes; the count is kept. The oldest has a way of its own, in which each plane is one shift.
    fn drop_message(&mut self, slot: SlotNumber, i: usize, n: usize)
        requires { (i < n) × (n ≤ mailbox_room) }
        ensures { SlotChanged slot.number (Without i n) self.old.words self.new.words }
    {
        if i == 0 {
            self.drop_first(slot, n);
        } else {
            self.close_gap(slot, i, n);
            self.unmark(slot, i);
        }
    }

    // Message i goes.
    pub fn remove(&mut self, slot: SlotNumber, i: usize)
        requires { i < length (task_at (slots_in self.old) slot.number).mailbox }
        ensures { slots_in self.new ≡ change slot.number (without_message i) (slots_in self.old) }
    {
        let n = self.mailbox_length(slot);
        self.drop_message(slot, i, n);
        self.put(slot, COUNT, (n - 1) as u64);
    }

    // ---- a whole mailbox

    // The mailbox of the slot has n messages with these labels, in place of what it had. Their senders and values are what the ring holds,
    // until `set_mail` gives each its own.
    pub fn open_mailbox(&mut self, slot: SlotNumber, n: usize, labels: planes::LabelPlanes)
        requires { n ≤ mailbox_room }
        ensures { slots_in self.new
            ≡ change slot.number (with_mailbox (opened n (label_from 4 (plane_of labels)) (window self.old.words slot.number)))
            (slots_in self.old) }
    {
        self.put(slot, PLANES, labels.first);
        self.put(slot, PLANES + 1, labels.second);
        self.put(slot, PLANES + 2, labels.third);
        self.put(slot, PLANES + 3, labels.fourth);
        self.put(slot, COUNT, n as u64);
    }

    // Message i gets a sender and a value.
    #[tactic(auto, using(crate::proofs::Slots::mail_fits))]
    pub fn set_mail(&mut self, slot: SlotNumber, i: usize, sender: u8, value: u32)
        requires { i < length (task_at (slots_in self.old) slot.number).mailbox }
        ensures { slots_in self.new ≡ change slot.number (with_mail i sender value) (slots_in self.old) }
    {
        self.put_mail(slot, i, sender, value);
    }

    // ---- changing a slot

    // The slot becomes unused. Its other words stay, and nothing reads them.
    pub fn clear(&mut self, slot: SlotNumber)
        ensures { slots_in self.new ≡ set (slots_in self.old) slot.number unused }
    {
        self.put(slot, KIND, 0);
    }

    // Every word of the slot ahead of its planes becomes 0.
    fn clear_fields(&mut self, slot: SlotNumber)
        ensures { SlotStored slot.number (cleared 16) self.old.words self.new.words }
    {
        for i in 0..PLANES {
            self.put(slot, i, 0);
        }
    }

    // The slot holds a new task in place of what it held, with registers 0 and no messages; kind 0, a byte as an image has it, leaves it
    // unused. The fields come one by one: a struct of them would be made for this call alone.
    pub fn put_task(
        &mut self,
        slot: SlotNumber,
        kind: u8,
        label: u8,
        clearance: u8,
        spare: u8,
        pc: u32,
    )
        ensures { slots_in self.new ≡ set (slots_in self.old) slot.number (held (new_task kind label clearance spare pc)) }
    {
        self.clear_fields(slot);
        self.put(slot, KIND, kind as u64);
        self.put(slot, LABEL, label as u64);
        self.put(slot, CLEARANCE, clearance as u64);
        self.put(slot, SPARE, spare as u64);
        self.put(slot, PC, pc as u64);
    }
}
