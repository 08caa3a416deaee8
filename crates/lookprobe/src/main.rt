// The program `lookprobe`, for tests alone: reads an image from standard input and prints what the count of each label's messages
// tells of each slot, and nothing of an image that is refused. It is not installed: what it prints depends on messages whatever their
// labels, so no observer may have it.
#![tactic(auto)]

ghost use Rattle.std.specs.Prelude.{ℕ, ◌<◌, ◌≤◌, ◌≡◌, List, length, OnOk, OnErr};
ghost use Rattle.std.specs.Io.KnownBytes.{Appends};

use machine::SlotNumber;
use std::io;
use std::io::Write;
use table::Table;

// More than any image has, so that a longer input is seen to be longer.
const READ_MAX: usize = 8192;

// Two bytes for each label.
const TOLD: usize = 32;

// Prints a slot: for each label 1 where there is room for one more message, else 0, and then how many were looked at. Both are 0 in
// an unused slot. Where a write fails, a front of these.
fn print_slot<W: Write>(target: &mut W, table: &Table, slot: SlotNumber) -> io::Result<()>
    ensures whole { OnOk result ((bytes : List ℕ) × (length bytes ≡ 32) × Appends (W.contents target.old) (W.contents target.new) bytes) }
    ensures failed { OnErr result ((bytes : List ℕ) × (length bytes ≤ 32) × Appends (W.contents target.old) (W.contents target.new) bytes) }
{
    let mut told: [u8; TOLD] = [0; TOLD];
    if table.is_used(slot) {
        for label in 0..16 {
            let looked = search::look(table, slot, label as u8);
            told[2 * label] = looked.room as u8;
            // at most 64, of which the remainder spares a proof
            told[2 * label + 1] = (looked.looked % 256) as u8;
        }
    }
    streams::write_full(target, &told)
}

fn main(rt: HostRuntime) -> io::Result<()> {
    let mut bytes: [u8; READ_MAX] = [0; READ_MAX];
    let n = streams::read_full(&mut rt.stdin(), &mut bytes)?;
    let image = &bytes[..n];
    if judge::check(image).is_ok() {
        let mut table = Table::new();
        loader::load(&mut table, image);
        for number in 0..16 {
            print_slot(&mut rt.stdout(), &table, SlotNumber { number })?;
        }
    }
    Ok(())
}
