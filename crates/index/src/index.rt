// The index of a plan.
ghost use Rattle.index.specs.Entries.{Indexed};

use crate::carried::carried_by;
use crate::entry::TaskEntry;
use records::limits::{MOST_OBJECTS, MOST_TASKS};
use tasks::Tasks;

// For each channel what a message on it carries of each channel, and for each task its entry. Tables by number, and no lists:
// past the channels and the tasks they read as nothing.
#[derive(Clone, Copy)]
pub struct Index {
    pub carried: [[i32; MOST_OBJECTS]; MOST_OBJECTS],
    pub tasks: [TaskEntry; MOST_TASKS],
}

impl Index {
    // The index of these tasks, of which there are at most 24. Each entry is written where it stays: to make the table by
    // `from_fn` and then move it in costs a good quarter more.
    pub fn of(tasks: &Tasks) -> Index
        ensures { Indexed tasks.now.records.now tasks.now.rows.now result }
    {
        let mut index = Index {
            carried: carried_by(tasks.records),
            tasks: [TaskEntry::default(); MOST_TASKS],
        };
        for (k, entry) in index.tasks.iter_mut().enumerate() {
            *entry = TaskEntry::numbered(tasks, k);
        }
        index
    }
}
