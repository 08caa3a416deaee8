// The effect of each instruction on the table, and a message's delivery. They rest on a slot that is ready for an instruction.
// That a slot is used or ready is a clause (`GoesOn`, `Ready`) and no type: one that says it would borrow the table, which turns change.
// Operands are plain bytes, as definitions `decode` and `execute` have them: their range comes with the instruction (`WasDecoded`).
// Each function takes the table and a slot of it: what says both at once would borrow the table, which it changes.
#![tactic(auto)]

ghost use Rattle.std.specs.Prelude.{ℕ, ◌≡◌, ◌<◌, ◌≤◌, length, nat_lt, slice_set, is_some, IfSome};
ghost use Rattle.label.specs.Label.{flows};
ghost use Rattle.instruction.specs.declared.Instruction.TheVariants.{Copy, Zero, Raise, Send, Take, Poll, Sandbox, Identity, Count};
ghost use Rattle.machine.specs.Limits.{highest_label};
ghost use Rattle.machine.specs.State.{used, slot_at, with_register, next};
ghost use Rattle.machine.specs.Effect.{receives, child_of, found, deliver};
ghost use Rattle.machine.specs.Turn.{perform};
ghost use Rattle.machine.specs.Post.{has_more};
ghost use Rattle.table.specs.Table.{slots_in};
ghost use Rattle.table.specs.Change.{task_at, change};
ghost use Rattle.effect.specs.Effects.{executed, computed, Computes, accepts, RoomFor, GoesOn, Ready, WasDecoded};

use instruction::Instruction;
use machine::{Kind, Message, SlotNumber};
use table::Table;

// ---- registers and place

// The place goes up by 1.
fn advance(table: &mut Table, slot: SlotNumber)
    requires { GoesOn slot.number (slots_in table.old) }
    ensures { slots_in table.new ≡ change slot.number next (slots_in table.old) }
{
    let pc = table.pc(slot);
    table.set_pc(slot, pc + 1);
}

// The place goes up, and register a gets x.
fn gets(table: &mut Table, slot: SlotNumber, a: u8, x: u32)
    requires { GoesOn slot.number (slots_in table.old) × (a < 8) }
    ensures { slots_in table.new ≡ change slot.number (λ t. next (with_register a x t)) (slots_in table.old) }
{
    advance(table, slot);
    table.set_register(slot, a as usize, x);
}

// Register a gets register b.
fn copy(table: &mut Table, slot: SlotNumber, a: u8, b: u8)
    requires { Ready slot.number (slots_in table.old) × WasDecoded (Copy a b) }
    ensures { slots_in table.new ≡ executed (Copy a b) slot.number (slots_in table.old) }
{
    let x = table.register(slot, b as usize);
    gets(table, slot, a, x);
}

// Register a gets what `operation` makes of registers b and c.
fn compute<F: Fn(u32, u32) -> u32>(
    table: &mut Table,
    slot: SlotNumber,
    a: u8,
    b: u8,
    c: u8,
    operation: F,
)
    requires { GoesOn slot.number (slots_in table.old) × (a < 8) × (b < 8) × (c < 8) × F.IsAlwaysCallable operation }
    ensures { (f : ℕ → ℕ → ℕ) → Computes f (F.post operation)
        → slots_in table.new ≡ change slot.number (computed f a b c) (slots_in table.old) }
{
    let x = table.register(slot, b as usize);
    let y = table.register(slot, c as usize);
    gets(table, slot, a, operation(x, y));
}

// The place becomes b if register a is 0.
fn zero(table: &mut Table, slot: SlotNumber, a: u8, b: u8)
    requires { Ready slot.number (slots_in table.old) × WasDecoded (Zero a b) }
    ensures { slots_in table.new ≡ executed (Zero a b) slot.number (slots_in table.old) }
{
    if table.register(slot, a as usize) == 0 {
        table.set_pc(slot, b as u32);
    } else {
        advance(table, slot);
    }
}

// The task's own label is joined with a. Where that leaves the task's clearance, the task gets kind 6 and its label stays.
fn raise(table: &mut Table, slot: SlotNumber, a: u8)
    requires { Ready slot.number (slots_in table.old) }
    ensures { slots_in table.new ≡ executed (Raise a) slot.number (slots_in table.old) }
{
    let raised = label::join(table.label(slot), a);
    if label::is_subset(raised, table.clearance(slot)) {
        table.set_label(slot, raised);
        advance(table, slot);
    } else {
        table.set_kind(slot, Kind::StoppedByClearance as u8);
    }
}

// Register a gets the task's own label, then register b its own slot.
fn identity(table: &mut Table, slot: SlotNumber, a: u8, b: u8)
    requires { Ready slot.number (slots_in table.old) × WasDecoded (Identity a b) }
    ensures { slots_in table.new ≡ executed (Identity a b) slot.number (slots_in table.old) }
{
    let own = table.label(slot);
    table.set_register(slot, a as usize, own as u32);
    gets(table, slot, b, slot.number as u32);
}

// ---- messages

// The slot numbered `to` where it has a live task with fewer than four messages of the label. A number above 15 names no slot.
#[tactic(auto, using(crate::proofs::Effects::accepts_none))]
fn accepting(table: &Table, to: u32, label: u8) -> Option<SlotNumber>
    requires { label ≤ highest_label }
    ensures told { is_some result ≡ accepts label (slot_at (slots_in table.now) to) }
    ensures numbered { IfSome result (λ slot. slot.number ≡ to) }
{
    if to < 16 {
        let slot = SlotNumber {
            number: to as usize,
        };
        if table.is_live(slot) {
            return search::look(table, slot, label).room.then_some(slot);
        }
    }
    None
}

// The message joins the mailbox of a live task that has fewer than four of its label; in all other cases it is dropped. Tells
// whether it joined.
pub fn deliver(table: &mut Table, to: u32, message: Message) -> bool
    requires { RoomFor message.label (task_at (slots_in table.old) to).mailbox }
    ensures { (slots_in table.new ≡ perform (deliver to message) (slots_in table.old))
        × (result ≡ has_more to (slots_in table.old) (slots_in table.new)) }
{
    if let Some(receiver) = accepting(table, to, message.label) {
        table.append(receiver, message);
        true
    } else {
        false
    }
}

// Sends register c under label b to the slot numbered in register a. Where the task's label does not flow to b it gets kind 4,
// and nothing is sent. The message is delivered here and not by a call of `deliver`, which would save and load registers.
fn send(table: &mut Table, slot: SlotNumber, a: u8, b: u8, c: u8)
    requires { Ready slot.number (slots_in table.old) × WasDecoded (Send a b c) }
    ensures { slots_in table.new ≡ executed (Send a b c) slot.number (slots_in table.old) }
{
    if label::flows(table.label(slot), b) {
        let to = table.register(slot, a as usize);
        let value = table.register(slot, c as usize);
        advance(table, slot);
        if let Some(receiver) = accepting(table, to, b) {
            table.append(
                receiver,
                Message {
                    label: b,
                    sender: slot.number as u8,
                    value,
                },
            );
        }
    } else {
        table.set_kind(slot, Kind::StoppedByLabel as u8);
    }
}

// Message i goes: its value into register a, then its sender into register b.
fn take_message(table: &mut Table, slot: SlotNumber, i: usize, a: u8, b: u8)
    requires { GoesOn slot.number (slots_in table.old)
        × (i < length (task_at (slots_in table.old) slot.number).mailbox)
        × (a < 8)
        × (b < 8) }
    ensures { slots_in table.new ≡ change slot.number (receives a b i) (slots_in table.old) }
{
    let value = table.message_value(slot, i);
    let sender = table.message_sender(slot, i);
    table.remove(slot, i);
    table.set_register(slot, a as usize, value);
    gets(table, slot, b, sender as u32);
}

// Takes the oldest receivable message: whether there was one. Its index tells that, so nothing is counted.
fn take(table: &mut Table, slot: SlotNumber, a: u8, b: u8) -> bool
    requires { Ready slot.number (slots_in table.old) × (a < 8) × (b < 8) }
    ensures { (slots_in table.new ≡ executed (Take a b) slot.number (slots_in table.old))
        × (result ≡ nat_lt 0 (found flows (task_at (slots_in table.old) slot.number)).receivable) }
{
    let own = table.label(slot);
    let i = search::find(table, slot, own).oldest;
    if i < table.mailbox_length(slot) {
        take_message(table, slot, i, a, b);
        true
    } else {
        false
    }
}

// As take; with nothing receivable the place becomes c.
fn poll(table: &mut Table, slot: SlotNumber, a: u8, b: u8, c: u8)
    requires { Ready slot.number (slots_in table.old) × WasDecoded (Poll a b c) }
    ensures { slots_in table.new ≡ executed (Poll a b c) slot.number (slots_in table.old) }
{
    if !take(table, slot, a, b) {
        table.set_pc(slot, c as u32);
    }
}

// Register a gets how many messages are receivable.
fn count(table: &mut Table, slot: SlotNumber, a: u8)
    requires { Ready slot.number (slots_in table.old) × WasDecoded (Count a) }
    ensures { slots_in table.new ≡ executed (Count a) slot.number (slots_in table.old) }
{
    let own = table.label(slot);
    let n = search::find(table, slot, own).receivable;
    gets(table, slot, a, n as u32);
}

// ---- new tasks

// The new task of a sandbox in slot `child`, with the parent's label and clearance, and the parent's slot in register 0.
// Its values come one by one, as `put_task` takes them: a struct of them would be made for this call alone.
fn spawn(
    table: &mut Table,
    child: SlotNumber,
    parent: SlotNumber,
    label: u8,
    clearance: u8,
    pc: u8,
    size: u8,
)
    requires { 1 ≤ size }
    ensures { slots_in table.new
        ≡ slice_set (slots_in table.old) child.number (used (child_of parent.number label clearance pc size)) }
{
    table.put_task(
        child,
        Kind::Live as u8,
        label,
        clearance,
        size - 1,
        pc as u32,
    );
    table.set_register(child, 0, parent.number as u32);
}

// A new task at place b with the last c of the task's spare slots, its slot into register a; too few spare slots stop the task.
fn sandbox(table: &mut Table, slot: SlotNumber, a: u8, b: u8, c: u8)
    requires { Ready slot.number (slots_in table.old) × WasDecoded (Sandbox a b c) }
    ensures { slots_in table.new ≡ executed (Sandbox a b c) slot.number (slots_in table.old) }
{
    let spare = table.spare(slot);
    if c <= spare {
        let own = table.label(slot);
        let clearance = table.clearance(slot);
        let left = spare - c;
        let child = SlotNumber {
            number: slot.number + (left as usize) + 1,
        };
        table.set_spare(slot, left);
        gets(table, slot, a, child.number as u32);
        spawn(table, child, slot, own, clearance, b, c);
    } else {
        table.set_kind(slot, Kind::WithoutSpare as u8);
    }
}

// ---- every instruction

// Carries an instruction out.
#[tactic(auto, using(crate::proofs::Effects::by_form))]
pub fn execute(table: &mut Table, slot: SlotNumber, i: Instruction)
    requires { Ready slot.number (slots_in table.old) × WasDecoded i }
    ensures { slots_in table.new ≡ executed i slot.number (slots_in table.old) }
{
    match i {
        Instruction::End => table.set_kind(slot, Kind::Done as u8),
        Instruction::Set(a, b, c) => gets(table, slot, a, (b as u32) * 256 + (c as u32)),
        Instruction::Copy(a, b) => copy(table, slot, a, b),
        Instruction::Add(a, b, c) => compute(table, slot, a, b, c, |x, y| x.wrapping_add(y)),
        Instruction::Subtract(a, b, c) => compute(table, slot, a, b, c, |x, y| x.wrapping_sub(y)),
        Instruction::Go(a) => table.set_pc(slot, a as u32),
        Instruction::Zero(a, b) => zero(table, slot, a, b),
        Instruction::Raise(a) => raise(table, slot, a),
        Instruction::Send(a, b, c) => send(table, slot, a, b, c),
        Instruction::Take(a, b) => {
            take(table, slot, a, b);
        }
        Instruction::Poll(a, b, c) => poll(table, slot, a, b, c),
        Instruction::Sandbox(a, b, c) => sandbox(table, slot, a, b, c),
        Instruction::Identity(a, b) => identity(table, slot, a, b),
        Instruction::Count(a) => count(table, slot, a),
    }
}
