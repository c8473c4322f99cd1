// The entry of a task.
ghost use Rattle.std.specs.Prelude.{◌<◌, ◌≤◌, length, slice_index_or};
ghost use Rattle.tasks.specs.Records.{no_task};
ghost use Rattle.index.specs.Entries.{EmptyEntry, EntryOf};

use crate::opening::counted_on;
use records::limits::MOST_OBJECTS;
use records::{Record, TaskRow};
use tasks::{Tasks, leading_counts, leading_operations, rest};

// An entry of nothing is all zero.
#[derive(Clone, Copy, Default)]
pub struct TaskEntry {
    // its T line, from 1
    pub line: usize,
    // the index of the record of its first operation, and how many operations it has
    pub first: usize,
    pub operations: usize,
    // what it starts with on each channel
    pub opening: [i32; MOST_OBJECTS],
}

impl TaskEntry {
    // The entry of a task of these records.
    pub fn of(records: &[Record], task: TaskRow) -> TaskEntry
        ensures { EntryOf records.now task result }
    {
        let after = rest(records, task.line);
        let counts = leading_counts(after);
        TaskEntry {
            line: task.line,
            first: task.line + counts,
            operations: leading_operations(rest(after, counts)),
            opening: counted_on(&after[..counts]),
        }
    }

    // The entry of the task with this number, and of nothing past the tasks.
    pub(crate) fn numbered(tasks: &Tasks, k: usize) -> TaskEntry
        ensures within { k < length tasks.now.rows.now → EntryOf tasks.now.records.now (slice_index_or tasks.now.rows.now k no_task) result }
        ensures past { length tasks.now.rows.now ≤ k → EmptyEntry result }
    {
        let Some(row) = tasks.rows.get(k) else {
            return TaskEntry::default();
        };
        TaskEntry::of(tasks.records, *row)
    }
}
