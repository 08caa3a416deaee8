// The C interface, which include/rithennaw.h declares: each function hands its arguments to a call of the monitor, the sheet's or the
// listing's, and what the call tells to the caller. A `&[u8]` is a pointer and then a length. Each that tells a number promises as
// well that what it was lent as image, text or program is bytes: of an image number 0 then makes an accepted one, and of a program the
// claims ask for it. A post promises too that its value fits into 32 bits, which the secrecy rule asks of it.
#![tactic(auto)]

ghost use Rattle.std.specs.Prelude.{◌≡◌, cond};
ghost use Rattle.wire.specs.Lists.{Bytes};
ghost use Rattle.image.specs.Refusal.{image_number};
ghost use Rattle.image.specs.Part.{record_extent};
ghost use Rattle.monitor.specs.Calls.{as_answer, call_answer, rewrite_call, turns_call, post_call, post_delivered, view_call};
ghost use Rattle.monitor.specs.CallList.{ask_post, Fits};
ghost use Rattle.sheet.specs.Sheet.{sheet_call};
ghost use Rattle.listing.specs.Listing.{AssemblePromise, disassemble_call};
ghost use Rattle.rithennaw.specs.Told.{Told};

use monitor::{Answer, PostAnswer, Written};
use refusal::Refusal;

// Tells the length of a call that runs no turn, and then its number.
fn tell(call: Result<Written, Refusal>, length: &mut usize) -> u8
    ensures { (result ≡ (as_answer call).number) × (length.new ≡ (as_answer call).length) }
{
    let answer = Answer::from(call);
    *length = answer.length;
    answer.number
}

// The number of an image, 0 where it is accepted.
#[unsafe(no_mangle)]
pub extern "C" fn rithennaw_check(image: &[u8]) -> u8
    ensures { (result ≡ image_number image.now) × Bytes image.now }
{
    match calls::check(image) {
        Ok(()) => 0,
        Err(refusal) => u8::from(refusal),
    }
}

// Where the record of a slot stands in the image: start and length both 0 where it has none.
#[unsafe(no_mangle)]
pub extern "C" fn rithennaw_record(image: &[u8], slot: u32, start: &mut usize, length: &mut usize)
    ensures { (start.new ≡ (record_extent image.now slot).start)
        × (length.new ≡ (record_extent image.now slot).length) }
{
    let extent = calls::record_extent(image, slot);
    *start = extent.start;
    *length = extent.length;
}

// Writes an image again as it was read.
#[unsafe(no_mangle)]
pub extern "C" fn rithennaw_rewrite(image: &[u8], out: &mut [u8], length: &mut usize) -> u8
    ensures { Told image.now (rewrite_call image.now) out.old result length.new out.new }
{
    tell(calls::rewrite(image, out), length)
}

// Writes the image after `count` turns.
#[unsafe(no_mangle)]
pub extern "C" fn rithennaw_turns(
    image: &[u8],
    count: u64,
    out: &mut [u8],
    length: &mut usize,
    busy: &mut u64,
) -> u8
    ensures { Told image.now (turns_call count image.now) out.old result length.new out.new
        × (busy.new ≡ (call_answer (turns_call count image.now) out.old).busy) }
{
    let turned = Answer::from(calls::turns(image, count, out));
    *length = turned.length;
    *busy = turned.busy;
    turned.number
}

// Posts the host's message to a slot and writes the image after it: 1 in `delivered` where it was delivered, and 0 where it was
// dropped.
#[unsafe(no_mangle)]
pub extern "C" fn rithennaw_post(
    image: &[u8],
    slot: u32,
    label: u32,
    value: u32,
    out: &mut [u8],
    length: &mut usize,
    delivered: &mut u8,
) -> u8
    ensures { Told image.now (post_call slot label value image.now) out.old result length.new out.new
        × (delivered.new ≡ cond (post_delivered slot label value image.now out.old) 1 0)
        × Fits (ask_post slot label value) }
{
    let posted = PostAnswer::from(calls::post(image, slot, label, value, out));
    *length = posted.answer.length;
    *delivered = posted.delivered as u8;
    posted.answer.number
}

// Writes the view for an observer.
#[unsafe(no_mangle)]
pub extern "C" fn rithennaw_view(
    image: &[u8],
    observer: u32,
    out: &mut [u8],
    length: &mut usize,
) -> u8
    ensures { Told image.now (view_call observer image.now) out.old result length.new out.new }
{
    tell(calls::view(image, observer, out), length)
}

// Writes the observer sheet.
#[unsafe(no_mangle)]
pub extern "C" fn rithennaw_sheet(
    image: &[u8],
    observer: u32,
    out: &mut [u8],
    length: &mut usize,
) -> u8
    ensures { Told image.now (sheet_call observer image.now) out.old result length.new out.new }
{
    tell(sheet::write(image, observer, out), length)
}

// Writes the program of a text.
#[unsafe(no_mangle)]
pub extern "C" fn rithennaw_assemble(text: &[u8], out: &mut [u8], length: &mut usize) -> u8
    ensures { AssemblePromise text.now out.old (record { number = result; length = length.new; busy = 0 }) out.new
        × Bytes text.now }
{
    tell(listing::assemble(text, out), length)
}

// Writes the text of a program.
#[unsafe(no_mangle)]
pub extern "C" fn rithennaw_disassemble(program: &[u8], out: &mut [u8], length: &mut usize) -> u8
    ensures { Told program.now (disassemble_call program.now) out.old result length.new out.new }
{
    tell(listing::disassemble(program, out), length)
}
