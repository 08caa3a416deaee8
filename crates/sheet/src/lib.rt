// The observer sheet as text: the call that writes it, and what the program `slotsheet` prints.
#![tactic(auto)]

ghost use Rattle.std.specs.Prelude.{◌≤◌, ◌<◌, ◌≡◌, length};
ghost use Rattle.wire.specs.Output.{overwrite};
ghost use Rattle.wire.specs.Inner.{written};
ghost use Rattle.refusal.specs.Refusal.{number_of};
ghost use Rattle.machine.specs.Limits.{sheet_room};
ghost use Rattle.table.specs.Table.{slots_in};
ghost use Rattle.table.specs.Change.{Used};
ghost use Rattle.monitor.specs.Calls.{output_answer, as_answer, CallPromise};
ghost use Rattle.sheet.specs.Sheet.{sheet_call, refusal_line, printed};
ghost use Rattle.sheet.specs.Inner.{seen_task_line, seen_line, seen_lines, seen_sheet};

use machine::SlotNumber;
use monitor::Written;
use refusal::Refusal;
use table::Table;

// No sheet is longer, in bytes: the heading, and sixteen lines of at most eighteen.
pub const SHEET_MAX: usize = 318;

// The longest input that the program takes, in bytes.
pub const INPUT_MAX: usize = 8192;

// ---- a table as an observer sees it: of what snapshot writes of it, the version is not asked for here

#[derive(Clone, Copy)]
struct View<'a> {
    table: &'a Table,
    observer: u8,
}

impl View<'_> {
    // Writes the line of a task that the observer sees: how many bytes.
    fn put_task_line(&self, out: &mut [u8], slot: SlotNumber) -> usize
        requires { Used slot.number (slots_in self.now.table.now) × (length (seen_task_line self.now slot.number) ≤ length out.old) }
        ensures { (result ≡ length (seen_task_line self.now slot.number))
            × (out.new ≡ overwrite (seen_task_line self.now slot.number) out.old) }
    {
        let kind = self.table.kind(slot);
        let label = self.table.label(slot);
        let spare = self.table.spare(slot);
        let pc = self.table.pc(slot);
        let mail = snapshot::mail_shown(self.table, slot, self.observer);
        let fields: [u32; 5] = [kind as u32, label as u32, spare as u32, pc, mail as u32];
        let n = text::put_decimal(out, slot.number as u32);
        n + text::put_line_rest(&mut out[n..], &fields)
    }

    // Writes the line of a slot, where the observer sees a task in it: how many bytes.
    fn put_line(&self, out: &mut [u8], slot: SlotNumber) -> usize
        requires { length (seen_line self.now slot.number) ≤ length out.old }
        ensures { (result ≡ length (seen_line self.now slot.number))
            × (out.new ≡ overwrite (seen_line self.now slot.number) out.old) }
    {
        if snapshot::is_shown(self.table, slot, self.observer) {
            self.put_task_line(out, slot)
        } else {
            0
        }
    }

    // Writes the lines of all slots: how many bytes. It is a loop of its own, as text's `put_numbers`.
    fn put_lines(&self, out: &mut [u8]) -> usize
        requires { length (seen_lines self.now) ≤ length out.old }
        ensures { (result ≡ length (seen_lines self.now)) × (out.new ≡ overwrite (seen_lines self.now) out.old) }
    {
        let mut at = 0;
        for number in 0..16 {
            at += self.put_line(&mut out[at..], SlotNumber { number });
        }
        at
    }

    // Writes the heading and the lines: how many bytes.
    fn put_sheet(&self, out: &mut [u8]) -> usize
        requires { length (seen_sheet self.now) ≤ length out.old }
        ensures { (result ≡ length (seen_sheet self.now)) × (out.new ≡ overwrite (seen_sheet self.now) out.old) }
    {
        let n = text::put(out, b"slot kind label spare pc mail\n");
        n + self.put_lines(&mut out[n..])
    }

    // Ends a call whose image is accepted: writes the sheet, if the output has room for it. The sheet is made in a buffer of its
    // own first: only then is its length known.
    fn write_answer(&self, out: &mut [u8]) -> Result<Written, Refusal>
        requires { length (seen_sheet self.now) ≤ sheet_room }
        ensures { (as_answer result ≡ output_answer (length (seen_sheet self.now)) 0 (length out.old))
            × (out.new ≡ written (seen_sheet self.now) out.old) }
    {
        let mut text: [u8; SHEET_MAX] = [0; SHEET_MAX];
        let length = self.put_sheet(&mut text);
        monitor::write_answer(out, &text[..length])
    }
}

// Writes the sheet of an image's view for an observer.
pub fn write(image: &[u8], observer: u32, out: &mut [u8]) -> Result<Written, Refusal>
    ensures { CallPromise (sheet_call observer image.now) out.old (as_answer result) out.new }
{
    let observer = monitor::check_observer(observer)?;
    judge::check(image)?;
    let mut table = Table::new();
    loader::load(&mut table, image);
    let view = View {
        table: &table,
        observer,
    };
    view.write_answer(out)
}

// ---- what the program prints

// Writes the line that tells a refusal: how many bytes.
fn put_refusal(out: &mut [u8], refusal: Refusal) -> usize
    requires { length (refusal_line (number_of refusal)) ≤ length out.old }
    ensures { (result ≡ length (refusal_line (number_of refusal)))
        × (out.new ≡ overwrite (refusal_line (number_of refusal)) out.old) }
{
    let number = u8::from(refusal) as u32;
    let n = text::put(out, b"refused");
    n + text::put_line_rest(&mut out[n..], &[number])
}

// Writes all that the program prints for its standard input, an observer byte and then an image: how many bytes.
pub fn print(input: &[u8], out: &mut [u8; SHEET_MAX]) -> usize
    ensures { (result ≡ length (printed input.now)) × (result ≤ sheet_room)
        × (out.new ≡ overwrite (printed input.now) out.old) }
{
    if input.len() > INPUT_MAX {
        return put_refusal(out, Refusal::Tail);
    }
    let Some((&observer, image)) = input.split_first() else {
        return put_refusal(out, Refusal::Short);
    };
    match write(image, observer as u32, out) {
        Ok(written) => written.length,
        Err(refusal) => put_refusal(out, refusal),
    }
}
