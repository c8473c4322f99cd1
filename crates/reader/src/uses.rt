// What the names of a line have to be, and what may stand only once.
ghost use Rattle.std.specs.Prelude.{◌≡◌};
ghost use Rattle.text.specs.Text.{some};
ghost use Rattle.reader.specs.Lines.{held, new_name, object_of, task_above, is_pair, new_pair, is_count_of, new_count, last_task_line};

use crate::ensure::ensure;
use crate::known::Known;
use records::{Cause, Kind, Record, TaskRow, find};
use tasks::rest;
use text::Place;

// Whether a W line has the pair.
fn has_pair(carrier: usize, carried: usize, records: &[Record]) -> bool
    ensures { result ≡ some (is_pair carrier carried) records.now }
{
    records.iter().any(|row| row.letter == 'W' && row.first == carrier && row.second == carried)
}

// Whether a Q line has the channel.
fn has_count(channel: usize, records: &[Record]) -> bool
    ensures { result ≡ some (is_count_of channel) records.now }
{
    records
        .iter()
        .any(|row| row.letter == 'Q' && row.first == channel)
}

// The line of the last task, 0 where there is none. No Option: the records after line 0 are all of them, which is what
// follows the last task where there is none.
pub fn last_task_line(rows: &[TaskRow]) -> usize
    ensures { result ≡ last_task_line rows.now }
{
    rows.last().map_or(0, |task| task.line)
}

impl Known<'_> {
    // No object and no task has the name.
    pub fn is_new(&self, name: Place) -> Result<(), Cause>
        ensures { result ≡ new_name (held self.now) name }
    {
        let bytes = name.bytes(self.text);
        ensure(
            find(self.lists.object_rows(), self.text, bytes).is_none()
                && find(self.lists.task_rows(), self.text, bytes).is_none(),
            Cause::Declared,
        )
    }

    // The number of the object that has the name, if it is of the kind.
    pub fn object(&self, kind: Kind, name: Place) -> Result<usize, Cause>
        ensures { result ≡ object_of (held self.now) kind name }
    {
        let rows = self.lists.object_rows();
        match find(rows, self.text, name.bytes(self.text)) {
            Some(i) if rows[i].kind == kind => Ok(i),
            _ => Err(Cause::Unknown),
        }
    }

    // The number of the task above the last one that has the name.
    pub fn task_above(&self, name: Place) -> Result<usize, Cause>
        ensures { result ≡ task_above (held self.now) name }
    {
        let rows = self.lists.task_rows();
        let above = &rows[..rows.len().saturating_sub(1)];
        find(above, self.text, name.bytes(self.text)).ok_or(Cause::Unknown)
    }

    // No W line has the pair.
    pub fn is_new_pair(&self, carrier: usize, carried: usize) -> Result<(), Cause>
        ensures { result ≡ new_pair (held self.now) carrier carried }
    {
        ensure(!has_pair(carrier, carried, self.records), Cause::Twice)
    }

    // No Q line of the open task has the channel.
    pub fn is_new_count(&self, channel: usize) -> Result<(), Cause>
        ensures { result ≡ new_count (held self.now) channel }
    {
        let line = last_task_line(self.lists.task_rows());
        ensure(!has_count(channel, rest(self.records, line)), Cause::Twice)
    }
}
