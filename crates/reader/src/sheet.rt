// Reading a text into a sheet of records, and checking a sheet against its text.
ghost use Rattle.std.specs.Prelude.{◌≡◌, ℕ, ◌≤◌, true, [], ◌∷◌, ◌++◌, length, replicate, is_ok, IfErr, Ok, Decides};
ghost use Rattle.tasks.specs.Records.{blank};
ghost use Rattle.reader.specs.Reading.{read_lines, reading, verdict, sheet_after, Shows};

use crate::ensure::ensure;
use crate::finish::finish;
use crate::reading::read_step;
use records::limits::{MOST_BYTES, MOST_LINES};
use records::{BLANK, ReadFault, Record, WrittenOrder};
use tasks::Lists;
use text::Lines;

// Makes every record blank.
fn clear(sheet: &mut [Record])
    ensures { sheet.new ≡ replicate (length sheet.old) blank }
{
    sheet.fill(BLANK);
}

// Writes the records of the text into a blank sheet, up to the first fault.
fn fill<O: WrittenOrder>(text: &[u8], sheet: &mut [Record]) -> Result<(), ReadFault>
    requires { (sheet.old ≡ replicate (length sheet.old) blank) × (800 ≤ length sheet.old) }
    ensures answer { result ≡ verdict (read_lines O.WrittenOrder.written text.now) }
    ensures written { is_ok result ≡ true → sheet.new ≡ sheet_after (length sheet.old) (read_lines O.WrittenOrder.written text.now) }
{
    let mut lists = Lists::new();
    for line in Lines::of(text) {
        // the lists count the records, so that nothing counts beside them
        let count = lists.len();
        sheet[count] = read_step::<O>(text, &sheet[..count], &mut lists, line)?;
    }
    let all = lists.len();
    finish(&sheet[..all], &lists)
}

// Text and sheet are two memories of the caller's, one to read and one to write, so they stay two in all that follows.

// Reads the text into the sheet: a record a line, the others blank. After a fault the sheet is blank.
pub fn read<O: WrittenOrder>(text: &[u8], sheet: &mut [Record]) -> Result<(), ReadFault>
    ensures answer { result ≡ verdict (reading O.WrittenOrder.written text.now (length sheet.old)) }
    ensures written { sheet.new ≡ sheet_after (length sheet.old) (reading O.WrittenOrder.written text.now (length sheet.old)) }
{
    clear(sheet);
    if text.len() > MOST_BYTES {
        return Err(ReadFault::TextTooLong);
    }
    if sheet.len() < MOST_LINES {
        return Err(ReadFault::SheetTooShort);
    }
    let answer = fill::<O>(text, sheet);
    if answer.is_err() {
        clear(sheet);
    }
    answer
}

// Whether every record is blank.
fn is_blank(rows: &[Record]) -> bool
    ensures { Decides result (rows.now ≡ replicate (length rows.now) blank) }
{
    rows.iter().all(|row| *row == BLANK)
}

// Whether the lines of the text give no fault and exactly this sheet. It goes through the lines as `fill` does: what they
// share is `read_step` and `finish`, and one loop for both would take the sheet in two ways, to write and to compare.
fn shows<O: WrittenOrder>(text: &[u8], sheet: &[Record]) -> bool
    requires { 800 ≤ length sheet.now }
    ensures { Decides result (Shows (read_lines O.WrittenOrder.written text.now) sheet.now) }
{
    let mut lists = Lists::new();
    for line in Lines::of(text) {
        // the lists count the records here, too
        let count = lists.len();
        match read_step::<O>(text, &sheet[..count], &mut lists, line) {
            Ok(row) if row == sheet[count] => {}
            _ => return false,
        }
    }
    let all = lists.len();
    finish(&sheet[..all], &lists).is_ok() && is_blank(&sheet[all..])
}

// Answers Ok just where reading the text gives no fault and exactly this sheet. It only reads both.
pub fn check<O: WrittenOrder>(text: &[u8], sheet: &[Record]) -> Result<(), ReadFault>
    ensures answer { Decides (is_ok result) (Shows (reading O.WrittenOrder.written text.now (length sheet.now)) sheet.now) }
    ensures fault { IfErr result (λ f. f ≡ ReadFault.SheetDiffers) }
{
    ensure(
        text.len() <= MOST_BYTES && sheet.len() >= MOST_LINES && shows::<O>(text, sheet),
        ReadFault::SheetDiffers,
    )
}
