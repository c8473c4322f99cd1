// What a plan says of its objects, its tasks and their steps.
ghost use Rattle.std.specs.Prelude.{◌≡◌, ℕ, ◌<◌, true, length, pos};
ghost use Rattle.index.specs.Amounts.{amount_in, carried_by};
ghost use Rattle.index.specs.Entries.{EntryOf};
ghost use Rattle.model.specs.Program.{operation, step_at};
ghost use Rattle.tasks.specs.Records.{is_operation, is_send, objects_of, tasks_of};
ghost use Rattle.plan.specs.Good.{Word};
ghost use Rattle.plan.specs.Plans.{name_of, records_in};
ghost use Rattle.plan.specs.Program.{object as row, op_of, task_at, task_line, task_opening, task_ops};
ghost use Rattle.plan.specs.Steps.{step_seen};

use crate::plan::Plan;
use crate::step::Step;
use index::TaskEntry;
use records::limits::MOST_OBJECTS;
use records::{ObjectRow, Record};

// The step of the record of an operation.
fn step_of(row: Record) -> Step
    requires { (is_operation row ≡ true) × ((is_send row ≡ true → Word row.number)) }
    ensures { step_seen result ≡ operation (op_of row) }
{
    match row.letter {
        'S' => Step::Send {
            channel: row.first,
            word: row.number as u16,
        },
        'R' => Step::Receive { channel: row.first },
        'A' => Step::Acquire { lock: row.first },
        'L' => Step::Release { lock: row.first },
        _ => Step::Start { task: row.first },
    }
}

impl<'a> Plan<'a> {
    // How many objects the plan has, channels and locks.
    #[tactic(auto, using(crate::proofs::Kept::objects_are))]
    pub fn object_count(&self) -> usize
        ensures { result ≡ length (objects_of (records_in self.now.sheet.now)) }
    {
        self.lists.object_rows().len()
    }

    // An object by its number, in the order of declaration; past the objects a row of nothing.
    #[tactic(auto, using(crate::proofs::Kept::objects_are))]
    pub fn object(&self, object: usize) -> ObjectRow
        ensures { result ≡ row (records_in self.now.sheet.now) object }
    {
        self.lists
            .object_rows()
            .get(object)
            .copied()
            .unwrap_or_default()
    }

    // The name of an object; past the objects it is empty.
    pub fn name_of(&self, object: usize) -> &'a [u8]
        ensures { result.now ≡ name_of self.now.text.now (records_in self.now.sheet.now) object }
    {
        self.object(object).name.bytes(self.text)
    }

    // How many tasks the plan has.
    #[tactic(auto, using(crate::proofs::Kept::tasks_are))]
    pub fn task_count(&self) -> usize
        ensures { result ≡ length (tasks_of (records_in self.now.sheet.now)) }
    {
        self.lists.task_rows().len()
    }

    // The entry of a task in the index; past the tasks there is nothing.
    #[tactic(auto, using(crate::proofs::Kept::entry_is, crate::proofs::Kept::tasks_are))]
    fn entry(&self, task: usize) -> TaskEntry
        ensures { EntryOf (records_in self.now.sheet.now) (task_at (records_in self.now.sheet.now) task) result }
    {
        if task < self.lists.task_rows().len() {
            self.index.tasks[task]
        } else {
            TaskEntry::default()
        }
    }

    // How many operations a task has.
    #[tactic(auto, using(crate::proofs::Kept::operations_counted))]
    pub fn operation_count(&self, task: usize) -> usize
        ensures { result ≡ length (task_ops (records_in self.now.sheet.now) task) }
    {
        self.entry(task).operations
    }

    // The step of a task at a place; after its last operation it is the closing.
    pub fn step(&self, task: usize, place: usize) -> Step
        ensures { step_seen result ≡ step_at (task_ops (records_in self.now.sheet.now) task) place }
    {
        let entry = self.entry(task);
        if place < entry.operations {
            step_of(self.sheet[entry.first + place])
        } else {
            Step::Closing
        }
    }

    // The line of that step, from 1; the line of a closing is the T line of the task.
    pub fn line(&self, task: usize, place: usize) -> usize
        ensures { result ≡ task_line (records_in self.now.sheet.now) task place }
    {
        let entry = self.entry(task);
        if place < entry.operations {
            entry.first + place + 1
        } else {
            entry.line
        }
    }

    // How many credits of each channel a message on a channel carries.
    pub fn carried(&self, channel: usize) -> [i32; MOST_OBJECTS]
        ensures { (x : ℕ) → x < 32 → amount_in result x ≡ pos (carried_by (records_in self.now.sheet.now) channel x) }
    {
        match self.index.carried.get(channel) {
            Some(row) => *row,
            None => [0; MOST_OBJECTS],
        }
    }

    // What a task starts with on each channel.
    pub fn opening(&self, task: usize) -> [i32; MOST_OBJECTS]
        ensures { (x : ℕ) → x < 32 → amount_in result x ≡ task_opening (records_in self.now.sheet.now) task x }
    {
        self.entry(task).opening
    }
}
