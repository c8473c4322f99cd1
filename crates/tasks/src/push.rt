// Keeping the lists of the records, one record after another.
ghost use Rattle.std.specs.Prelude.{◌≡◌, ◌+◌, ◌<◌, ◌≤◌, true, [], ◌++◌, length, Ok, Err, if◌then◌else◌};
ghost use Rattle.tasks.specs.Records.{is_object, is_task, is_operation, kind_of, object_row, objects_in, task_row, tasks_in, pushed, room_in, view_of};
ghost use Rattle.tasks.specs.Roomy.{Roomy};
ghost use Rattle.records.specs.declared.fault.Cause.TheVariants.{Full};

use crate::lists::Lists;
use records::limits::{MOST_LINES, MOST_OBJECTS, MOST_OPERATIONS, MOST_TASKS};
use records::{Cause, Kind, ObjectRow, Record, TaskRow};

// The letters of the lines are the cases here, as in the rules of a plan, and no enum stands between. The rows are made by
// private steps and no From, since only the record of the right letter makes one.

fn is_object(row: Record) -> bool
    ensures { result ≡ is_object row }
{
    matches!(row.letter, 'C' | 'K')
}

pub(crate) fn is_operation(row: Record) -> bool
    ensures { result ≡ is_operation row }
{
    matches!(row.letter, 'S' | 'R' | 'A' | 'L' | 'F')
}

fn kind_of(row: Record) -> Kind
    ensures { result ≡ kind_of row }
{
    if row.letter == 'C' {
        Kind::Channel
    } else {
        Kind::Lock
    }
}

// The row of the object that a record declares.
fn object_row(row: Record) -> ObjectRow
    ensures { result ≡ object_row row }
{
    ObjectRow {
        name: row.name,
        kind: kind_of(row),
        number: row.number,
        extra: row.extra,
    }
}

// The row of the task that the record of a line begins.
fn task_row(line: usize, row: Record) -> TaskRow
    ensures { result ≡ task_row line row }
{
    TaskRow {
        name: row.name,
        line,
    }
}

impl Lists {
    // The lists of no records.
    pub fn new() -> Lists
        ensures { result ≡ view_of [] }
    {
        Lists {
            objects: [ObjectRow::default(); MOST_OBJECTS],
            object_count: 0,
            tasks: [TaskRow::default(); MOST_TASKS],
            task_count: 0,
            operations: 0,
            lines: 0,
        }
    }

    // The objects, in the order of their declaration.
    pub fn object_rows(&self) -> &[ObjectRow]
        ensures rows { result.now ≡ self.now.objects }
        ensures few { length result.now ≤ 32 }
    {
        &self.objects[..self.object_count]
    }

    // The tasks, in the order of their T lines.
    pub fn task_rows(&self) -> &[TaskRow]
        ensures rows { result.now ≡ self.now.tasks }
        ensures few { length result.now ≤ 24 }
    {
        &self.tasks[..self.task_count]
    }

    // Whether there is room for one record more.
    fn has_room(&self, row: Record) -> bool
        ensures { result ≡ room_in self.now row }
    {
        if self.lines >= MOST_LINES {
            return false;
        }
        if is_object(row) {
            self.object_count < MOST_OBJECTS
        } else if row.letter == 'T' {
            self.task_count < MOST_TASKS
        } else if is_operation(row) {
            self.operations < MOST_OPERATIONS
        } else {
            true
        }
    }

    // The two that follow differ in the list, in what is added, and in what it is made of: one for both would take all three.

    // Adds the object that the record declares, if it declares one.
    fn note_object(&mut self, row: Record)
        requires { is_object row ≡ true → length self.old.objects < 32 }
        ensures { self.new ≡ record { objects = self.old.objects ++ objects_in row; tasks = self.old.tasks; operations = self.old.operations; lines = self.old.lines } }
    {
        if is_object(row) {
            self.objects[self.object_count] = object_row(row);
            self.object_count += 1;
        }
    }

    // Adds the task that the record begins, if it begins one.
    fn note_task(&mut self, row: Record)
        requires { is_task row ≡ true → length self.old.tasks < 24 }
        ensures { self.new ≡ record { objects = self.old.objects; tasks = self.old.tasks ++ tasks_in (self.old.lines + 1) row; operations = self.old.operations; lines = self.old.lines } }
    {
        if row.letter == 'T' {
            self.tasks[self.task_count] = task_row(self.lines + 1, row);
            self.task_count += 1;
        }
    }

    // Counts the line of the record, and the operation if it is one.
    fn note_line(&mut self, row: Record)
        requires { ((is_operation row ≡ true → self.old.operations < 512)) × (self.old.lines < 800) }
        ensures { self.new ≡ record { objects = self.old.objects; tasks = self.old.tasks; operations = (if is_operation row then self.old.operations + 1 else 0); lines = self.old.lines + 1 } }
    {
        if is_operation(row) {
            self.operations += 1;
        } else {
            self.operations = 0;
        }
        self.lines += 1;
    }

    // Takes up one record more if there is room for it; else it refuses, and nothing changes.
    pub fn push(&mut self, row: Record) -> Result<(), Cause>
        ensures room { result ≡ (if room_in self.old row then Ok tt else Err Full) }
        ensures after { self.new ≡ (if room_in self.old row then pushed self.old row else self.old) }
    {
        if !self.has_room(row) {
            return Err(Cause::Full);
        }
        self.note_object(row);
        self.note_task(row);
        self.note_line(row);
        Ok(())
    }

    // The lists of these records, if each had room after those before it.
    pub fn of(records: &[Record]) -> Lists
        ensures { Roomy records.now → result ≡ view_of records.now }
    {
        let mut lists = Lists::new();
        for row in records {
            // a record without room is left out; there is none where the clause speaks
            let _ = lists.push(*row);
        }
        lists
    }
}
