// What is looked for in a mailbox: the messages of a label or those that flow to one, as a set, and what the set tells.
// A used slot is a clause and no type, which would borrow the table that turns change. A label is a byte, as in definition `Message`, so
// that it is at most 15 is asked where it is looked for.
// Each function takes a table, a slot of it and a label, since each asks one question of the three.
#![tactic(auto)]

ghost use Rattle.std.specs.Prelude.{ℕ, Bool, ◌<◌, ◌≤◌, ◌≡◌, cond, eqb};
ghost use Rattle.wire.specs.Lists.{each};
ghost use Rattle.label.specs.Label.{bit, flows};
ghost use Rattle.planes.specs.Planes.{Bits, set_of, label_from};
ghost use Rattle.machine.specs.Limits.{highest_label};
ghost use Rattle.machine.specs.Effect.{find};
ghost use Rattle.table.specs.Table.{window, plane_in, slots_in};
ghost use Rattle.table.specs.Change.{Used, task_at};
ghost use Rattle.search.specs.Look.{look};
ghost use Rattle.search.specs.Planewise.{Tells};

use machine::{Found, SlotNumber};
use table::Table;

// How many messages of a label a mailbox may hold.
const LIMIT_PER_LABEL: usize = 4;

// ---- sets of messages

// Bit i: whether the label of message i in the slot passes a test, for each of 64, there or not. Plane by plane those go that fail it;
// `failing` tells them of a plane and its number.
fn passing<F: Fn(u64, usize) -> u64>(table: &Table, slot: SlotNumber, failing: F) -> u64
    requires { (plane b : ℕ) → b < 4 → F.pre failing plane b }
    ensures { (test : ℕ → ℕ → Bool) → Tells test (F.post failing)
        → Bits (λ i. cond (each 4 (λ b. test (bit i (plane_in (window table.now.words slot.number) b)) b)) 1 0) result }
{
    let mut failed: u64 = 0;
    for b in 0..4 {
        failed |= failing(table.plane(slot, b), b);
    }
    !failed
}

// Bit i: whether the label of message i in the slot is this one.
fn labelled(table: &Table, slot: SlotNumber, label: u8) -> u64
    requires { label ≤ highest_label }
    ensures { Bits (λ i. cond (eqb (label_from 4 (plane_in (window table.now.words slot.number)) i) label) 1 0) result }
{
    passing(table, slot, |plane, b| planes::unlike(plane, label, b))
}

// Bit i: whether the label of message i in the slot flows to `label`.
fn flowing(table: &Table, slot: SlotNumber, label: u8) -> u64
    ensures { Bits (λ i. cond (flows (label_from 4 (plane_in (window table.now.words slot.number)) i) label) 1 0) result }
{
    passing(table, slot, |plane, b| planes::above(plane, label, b))
}

// The messages of a label in the slot.
fn of_label(table: &Table, slot: SlotNumber, label: u8) -> u64
    requires { Used slot.number (slots_in table.now) × (label ≤ highest_label) }
    ensures { result ≡ set_of (λ m. eqb m.label label) (task_at (slots_in table.now) slot.number).mailbox }
{
    labelled(table, slot, label) & planes::below(table.mailbox_length(slot))
}

// ---- what a set tells

// The search of the slot at a label: which message that is receivable there is the oldest, and how many are. The oldest needs no mask: an
// index behind the last message says that there is none. It is no Option, since definition `find` (machine/specs/Effect.antt), on which the
// theorems of turns rest, says an index. Who does not ask for the count does not pay for it: the compiler leaves it out.
pub fn find(table: &Table, slot: SlotNumber, label: u8) -> Found
    requires { Used slot.number (slots_in table.now) }
    ensures { result ≡ find flows label (task_at (slots_in table.now) slot.number).mailbox }
{
    let n = table.mailbox_length(slot);
    if n == 0 {
        return Found {
            oldest: 0,
            receivable: 0,
        };
    }
    let passed = flowing(table, slot, label);
    let first = passed.trailing_zeros() as usize;
    Found {
        oldest: first.min(n),
        receivable: (passed & planes::below(n)).count_ones() as usize,
    }
}

// What the count of a label's messages tells: whether there is room for one more, and how many messages were looked at, which it tells in
// either case, as definition `look` does.
#[derive(Clone, Copy)]
pub struct Looked {
    pub room: bool,
    pub looked: usize,
}

// The count of a label's messages in the slot, from the oldest on. The loop drops three, whether they are there or not, since a test in
// each step would cost more than the steps; what is left begins with the fourth, and there the count ends.
pub fn look(table: &Table, slot: SlotNumber, label: u8) -> Looked
    requires { Used slot.number (slots_in table.now) × (label ≤ highest_label) }
    ensures { result ≡ look label (task_at (slots_in table.now) slot.number).mailbox }
{
    let n = table.mailbox_length(slot);
    if n < LIMIT_PER_LABEL {
        return Looked {
            room: true,
            looked: n,
        };
    }
    let mut left = of_label(table, slot, label);
    for _nth in 1..LIMIT_PER_LABEL {
        left = planes::rest(left);
    }
    if left == 0 {
        Looked {
            room: true,
            looked: n,
        }
    } else {
        Looked {
            room: false,
            looked: left.trailing_zeros() as usize + 1,
        }
    }
}
