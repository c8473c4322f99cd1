// The tasks of the records: a task is its T line, then its Q lines, then its operations.
ghost use Rattle.std.specs.Prelude.{◌≡◌, ℕ, ◌≤◌, length, drop, count_by, slice_index_or};
ghost use Rattle.std.specs.List.{prefix_len};
ghost use Rattle.tasks.specs.Records.{is_count, is_operation, is_send, no_task};
ghost use Rattle.tasks.specs.Threads.{operations_of, body_of, sends_of, main_task};

use crate::push::is_operation;
use records::{Record, TaskRow};

// The records of a text, and the rows of the tasks that they declare. No Model: the definitions take the two apart.
// Two lifetimes, so that the body of a task outlives the rows that it was found by.
#[derive(Clone, Copy)]
pub struct Tasks<'a, 'b> {
    pub records: &'a [Record],
    pub rows: &'b [TaskRow],
}

// The records from an index on.
pub fn rest(records: &[Record], from: usize) -> &[Record]
    ensures { result.now ≡ drop from records.now }
{
    records.get(from..).unwrap_or_default()
}

// The three counts of rows stand beside one another: with the test of a row as a closure, the contract of one function for
// all could only speak of the closure's calls.

// How many Q lines the rows begin with.
pub fn leading_counts(rows: &[Record]) -> usize
    ensures { result ≡ prefix_len is_count rows.now }
{
    rows.iter().take_while(|row| row.letter == 'Q').count()
}

// How many operations the rows begin with.
pub fn leading_operations(rows: &[Record]) -> usize
    ensures { result ≡ prefix_len is_operation rows.now }
{
    rows.iter().take_while(|row| is_operation(**row)).count()
}

// How many of the rows are sends.
fn count_sends(rows: &[Record]) -> usize
    ensures count { result ≡ count_by is_send rows.now }
    ensures few { result ≤ length rows.now }
{
    rows.iter().filter(|row| row.letter == 'S').count()
}

impl<'a> Tasks<'a, '_> {
    // The number of the main task, which is the last one; 0 where there is none, as the definition has it.
    pub fn main(&self) -> usize
        ensures { result ≡ main_task self.now.rows.now }
    {
        self.rows.len().saturating_sub(1)
    }

    // The operations of a task.
    fn operations(&self, task: TaskRow) -> &'a [Record]
        ensures { result.now ≡ operations_of self.now.records.now task }
    {
        let after = rest(self.records, task.line);
        let body = rest(after, leading_counts(after));
        &body[..leading_operations(body)]
    }

    // The row of the task with this number; past the tasks a row of nothing, as the definitions have it, so that a body is
    // answered for every number.
    fn at(&self, k: usize) -> TaskRow
        ensures { result ≡ slice_index_or self.now.rows.now k no_task }
    {
        self.rows.get(k).copied().unwrap_or_default()
    }

    // The operations of the task with this number.
    pub fn body_of(&self, k: usize) -> &'a [Record]
        ensures { result.now ≡ body_of self.now.records.now self.now.rows.now k }
    {
        self.operations(self.at(k))
    }

    // The sends of a thread of the task with this number.
    pub fn sends_of(&self, k: usize) -> usize
        ensures count { result ≡ sends_of self.now.records.now self.now.rows.now k }
        ensures few { result ≤ length self.now.records.now }
    {
        count_sends(self.body_of(k))
    }
}
