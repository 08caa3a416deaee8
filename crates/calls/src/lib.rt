// The code of the monitor's calls. Each takes any bytes and refuses what it cannot take.
#![tactic(auto)]

ghost use Rattle.std.specs.Prelude.{◌≡◌, length, OnOk};
ghost use Rattle.wire.specs.Slices.{offset_by};
ghost use Rattle.wire.specs.Inner.{written};
ghost use Rattle.refusal.specs.Refusal.{number};
ghost use Rattle.image.specs.Image.{state_of};
ghost use Rattle.image.specs.Refusal.{turn_limit_number, post_number, image_number};
ghost use Rattle.image.specs.Part.{record_part, record_extent};
ghost use Rattle.table.specs.Table.{slots_in};
ghost use Rattle.snapshot.specs.Writing.{snapshot_bytes};
ghost use Rattle.monitor.specs.Calls.{as_answer, as_post_answer, output_answer, CallPromise, rewrite_call, turns_call, PostPromise, view_call};

use machine::Message;
use monitor::{Posted, Written};
use refusal::Refusal;
use table::Table;

// Why an image is refused, if it is. Nothing is written.
pub fn check(image: &[u8]) -> Result<(), Refusal>
    ensures { number result ≡ image_number image.now }
{
    judge::check(image)
}

// The record of a slot, as the part of the image that holds it: no bytes for an unused slot, a slot above 15 or a refused
// image.
pub fn record(image: &[u8], slot: u32) -> &[u8]
    ensures { (result.now ≡ record_part image.now slot)
        × (result.ref_ptr ≡ offset_by (record_extent image.now slot).start image.entry.ref_ptr) }
{
    judge::record(image, slot as usize)
}

// Where that part stands in the image: start and length both 0 where it is empty.
pub fn record_extent(image: &[u8], slot: u32) -> image::Extent
    ensures { result ≡ record_extent image.now slot }
{
    judge::record_extent(image, slot as usize)
}

// Ends a call whose image is accepted: writes the table's tasks as the observer sees them, if the output has room for them. What it takes
// comes one by one, since each call has its own.
fn write_answer(
    out: &mut [u8],
    table: &Table,
    image: &[u8],
    turn: u8,
    observer: u8,
    busy: u64,
) -> Result<Written, Refusal>
    ensures { (as_answer result ≡ output_answer (length (snapshot_bytes table.now image.now turn observer)) busy (length out.old))
        × (out.new ≡ written (snapshot_bytes table.now image.now turn observer) out.old) }
{
    let size = snapshot::write(out, table, image, turn, observer);
    monitor::answered(size, busy, out.len())
}

// Writes the view of an image for an observer. An image is checked and loaded by the same three lines in each call, and no function hands
// the table out, which would copy it.
pub fn view(image: &[u8], observer: u32, out: &mut [u8]) -> Result<Written, Refusal>
    ensures { CallPromise (view_call observer image.now) out.old (as_answer result) out.new }
{
    let observer = monitor::check_observer(observer)?;
    check(image)?;
    let mut table = Table::new();
    loader::load(&mut table, image);
    let turn = image::turn_slot(image);
    write_answer(out, &table, image, turn, observer, 0)
}

// Writes an image again as it was read: for label 15 the view is the image.
pub fn rewrite(image: &[u8], out: &mut [u8]) -> Result<Written, Refusal>
    ensures { CallPromise (rewrite_call image.now) out.old (as_answer result) out.new }
{
    view(image, 15, out)
}

// The most turns that one call carries out.
const TURN_LIMIT: u64 = 1_000_000;

fn check_count(count: u64) -> Result<(), Refusal>
    ensures { number result ≡ turn_limit_number count }
{
    if count > TURN_LIMIT {
        Err(Refusal::TurnLimit)
    } else {
        Ok(())
    }
}

// Writes the image after this many turns, and tells how many of them met a live task.
pub fn turns(image: &[u8], count: u64, out: &mut [u8]) -> Result<Written, Refusal>
    ensures { CallPromise (turns_call count image.now) out.old (as_answer result) out.new }
{
    check_count(count)?;
    check(image)?;
    let mut table = Table::new();
    loader::load(&mut table, image);
    let turn = image::turn_slot(image);
    let ran = turn::turns(&mut table, image::program(image), turn, count);
    write_answer(out, &table, image, ran.turn, 15, ran.busy)
}

// The arguments of a post: the slot, then the label.
fn check_post(slot: u32, label: u32) -> Result<(), Refusal>
    ensures { number result ≡ post_number slot label }
{
    if slot > 15 {
        Err(Refusal::PostSlot)
    } else if label > 15 {
        Err(Refusal::PostLabel)
    } else {
        Ok(())
    }
}

// Writes the image once the host's message has gone to a slot, and tells whether it was delivered.
pub fn post(
    image: &[u8],
    slot: u32,
    label: u32,
    value: u32,
    out: &mut [u8],
) -> Result<Posted, Refusal>
    ensures { PostPromise slot label value image.now out.old (as_post_answer result) out.new }
{
    check_post(slot, label)?;
    check(image)?;
    let mut table = Table::new();
    loader::load(&mut table, image);
    let message = Message {
        label: label as u8,
        sender: image::HOST,
        value,
    };
    let delivered = effect::deliver(&mut table, slot, message);
    let turn = image::turn_slot(image);
    let written = write_answer(out, &table, image, turn, 15, 0)?;
    Ok(Posted { written, delivered })
}
