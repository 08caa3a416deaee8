// Turns over the table: the turn of a slot, rounds, and a run of turns. They rest on a valid state.
// Each function takes the table and a slot of it: what says both at once would borrow the table, which it changes.
#![tactic(auto)]

ghost use Rattle.std.specs.Prelude.{◌+◌, ◌-◌, ◌%◌, ◌≤◌, ◌<◌, min, max, ◌≡◌, true};
ghost use Rattle.label.specs.Label.{flows, join};
ghost use Rattle.machine.specs.State.{slot_at, has_live_task};
ghost use Rattle.machine.specs.Effect.{outcome};
ghost use Rattle.machine.specs.Turn.{applied};
ghost use Rattle.machine.specs.Valid.{Valid};
ghost use Rattle.machine.specs.Machine.{turns, busy};
ghost use Rattle.machine.specs.Inner.{bottom_of, top_behind, top_of, Within};
ghost use Rattle.table.specs.Table.{slots_in};
ghost use Rattle.table.specs.Change.{task_at};
ghost use Rattle.turn.specs.Answer.{running, run_told};

use machine::{Kind, SlotNumber};
use table::Table;

// ---- the turn of a slot

// What a live task does with its turn: with place N it gets kind 3, else it carries out one instruction. No place is above N.
fn act(table: &mut Table, program: &[u8], slot: SlotNumber)
    requires { Valid (running program.now slot.number table.old) × (has_live_task (slot_at (slots_in table.old) slot.number) ≡ true) }
    ensures { slots_in table.new
        ≡ applied slot.number (outcome flows join program.now slot.number (task_at (slots_in table.old) slot.number)) (slots_in table.old) }
{
    let pc = table.pc(slot) as usize;
    if pc < program.len() / 4 {
        effect::execute(table, slot, instruction::legal_at(program, pc));
    } else {
        table.set_kind(slot, Kind::PastProgram as u8);
    }
}

// ---- the slots that can ever be used: ends, and no Option of a slot's number, since 16 may be one and definitions `bottom_of` and
// `top_of` say 16 and 0 where no slot is used

// The lowest used slot, and 16 where there is none: a bound too, so that a round's `max` and `min` need no test.
fn bottom(table: &Table) -> u8
    ensures { result ≡ bottom_of (slots_in table.now) }
{
    let lowest = (0..16).find(
        |&number|
            requires { number < 16 }
        { table.is_used(SlotNumber { number }) },
    );
    lowest.unwrap_or(16) as u8
}

// The slot behind a slot and its spare where it is used, else `before`.
fn top_behind(table: &Table, slot: SlotNumber, before: u8) -> u8
    requires { Within 0 16 (slots_in table.now) }
    ensures { result ≡ top_behind slot.number before (slot_at (slots_in table.now) slot.number) }
{
    if table.is_used(slot) {
        slot.number as u8 + table.spare(slot) + 1
    } else {
        before
    }
}

// The slot behind the last used one and its spare, and 0 where there is none.
fn top(table: &Table) -> u8
    requires { Within 0 16 (slots_in table.now) }
    ensures { result ≡ top_of 16 (slots_in table.now) }
{
    (0..16).fold(
        0,
        |before, number|
            requires { (number < 16) × Within 0 16 (slots_in table.now) }
        { top_behind(table, SlotNumber { number }, before) },
    )
}

// ---- rounds

// Turns go round by round. A round goes on at a slot and ends behind slot 15, or behind the last of the turns left.
fn round_end(slot: u8, left: u64) -> u8
    requires { slot ≤ 15 }
    ensures { result ≡ min (slot + left) 16 }
{
    if left < 16 - (slot as u64) {
        slot + (left as u8)
    } else {
        16
    }
}

// The turns of the slots from `first` up to `end`, each followed by the next: how many met a live task. The slots below `bottom` and
// from `top` on are unused and stay so, and are passed over. It counts the slots without a live task, so that a live task's turn counts
// nothing. The bounds come one by one: two are new in each round, so a struct of the four would be made for each call.
fn round(table: &mut Table, program: &[u8], first: u8, end: u8, bottom: u8, top: u8) -> u64
    requires { Valid (running program.now first table.old) × (first ≤ end) × (end ≤ 16) × Within bottom top (slots_in table.old) }
    ensures { (result ≡ busy (end - first) (running program.now first table.old))
        × (running program.now (end % 16) table.new
        ≡ turns (end - first) (running program.now first table.old)) }
{
    let from = first.max(bottom) as usize;
    let stop = from.max(end.min(top) as usize);
    let mut idle: usize = 0;
    for number in from..stop {
        let slot = SlotNumber { number };
        if table.is_live(slot) {
            act(table, program, slot);
        } else {
            idle += 1;
        }
    }
    (stop - from - idle) as u64
}

// The slot behind a round: slot 15 is followed by slot 0.
fn next_slot(end: u8) -> u8
    requires { end ≤ 16 }
    ensures { result ≡ end % 16 }
{
    if end < 16 { end } else { 0 }
}

// What a run of turns tells: the slot whose turn is next, and how many of the turns met a live task.
#[derive(Clone, Copy)]
pub struct RunAnswer {
    pub turn: u8,
    pub busy: u64,
}

// n turns of the tasks in the table, the first that of slot `first`. A round takes as many turns as it has slots, so no `for` counts
// what is left.
pub fn turns(table: &mut Table, program: &[u8], first: u8, n: u64) -> RunAnswer
    requires { Valid (running program.now first table.old) }
    ensures { (result ≡ run_told n (running program.now first table.old))
        × (slots_in table.new ≡ (turns n (running program.now first table.old)).slots) }
{
    let mut slot = first;
    let mut busy: u64 = 0;
    let mut left = n;
    let bottom = bottom(table);
    let top = top(table);
    while left > 0 {
        let end = round_end(slot, left);
        busy += round(table, program, slot, end, bottom, top);
        left -= (end - slot) as u64;
        slot = next_slot(end);
    }
    RunAnswer { turn: slot, busy }
}
