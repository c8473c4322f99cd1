// Reading a line after the records of those before it.
ghost use Rattle.std.specs.Prelude.{◌≡◌, ◌<◌, [], ◌∷◌, ◌++◌, length, IfOk, OnOk};
ghost use Rattle.tasks.specs.Records.{view_of};
ghost use Rattle.reader.specs.Lines.{before, read_line};
ghost use Rattle.reader.specs.Reading.{read_next, roomed};

use crate::known::Known;
use records::{Cause, ReadFault, Record, WrittenOrder};
use tasks::Lists;
use text::Line;

// The record of a line if there is room for it, else a cause. The lists are then those with the record. They are lent for
// change here, so that they are those of the records is required, and no field of a struct with both.
fn read_record<O: WrittenOrder>(
    text: &[u8],
    records: &[Record],
    lists: &mut Lists,
    line: Line,
) -> Result<Record, Cause>
    requires { lists.old ≡ view_of records.now }
    ensures read { result ≡ roomed records.now (read_line O.WrittenOrder.written (before text.now records.now) line) }
    ensures listed { IfOk result (λ row. lists.new ≡ view_of (records.now ++ row ∷ [])) }
    ensures room { OnOk result (length records.now < 800) }
{
    let known = Known {
        text,
        records,
        lists,
        line,
    };
    let row = known.read_line::<O>()?;
    lists.push(row)?;
    Ok(row)
}

// The same, with the fault of the line.
pub fn read_step<O: WrittenOrder>(
    text: &[u8],
    records: &[Record],
    lists: &mut Lists,
    line: Line,
) -> Result<Record, ReadFault>
    requires { lists.old ≡ view_of records.now }
    ensures read { result ≡ read_next O.WrittenOrder.written text.now records.now line }
    ensures listed { IfOk result (λ row. lists.new ≡ view_of (records.now ++ row ∷ [])) }
    ensures room { OnOk result (length records.now < 800) }
{
    let number = records.len() + 1;
    read_record::<O>(text, records, lists, line).map_err(|cause| ReadFault::BadLine {
        cause,
        line: number,
    })
}
