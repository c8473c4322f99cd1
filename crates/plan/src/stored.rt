// What a plan keeps of its records. The lists and the threads can be copied, and each stands in a struct here that cannot be:
// a plan is moved whole, and for a move of references beside a struct that has a model and can be copied the check has no
// rule yet.
ghost use Rattle.std.specs.Prelude.{◌≡◌, ℕ, ◌≤◌, List, length};
ghost use Rattle.tasks.specs.Records.{View};

use records::{ObjectRow, TaskRow};
use std::marker::Model;
use tasks::{Lists, Threads};

// The lists of the objects and tasks.
#[derive(Drop)]
pub struct StoredLists {
    lists: Lists,
}

impl Model for StoredLists {
    ghost Value = { View };

    ghost view = { λ k. k.lists };
}

impl StoredLists {
    // Keeps the lists of a sheet.
    pub(crate) fn of(lists: Lists) -> StoredLists
        ensures { result ≡ lists }
    {
        StoredLists { lists }
    }

    // The objects, in the order of their declaration.
    pub(crate) fn object_rows(&self) -> &[ObjectRow]
        ensures rows { result.now ≡ self.now.objects }
        ensures few { length result.now ≤ 32 }
    {
        self.lists.object_rows()
    }

    // The tasks, in the order of their T lines.
    pub(crate) fn task_rows(&self) -> &[TaskRow]
        ensures rows { result.now ≡ self.now.tasks }
        ensures few { length result.now ≤ 24 }
    {
        self.lists.task_rows()
    }
}

// The table of the threads.
#[derive(Drop)]
pub struct StoredThreads {
    threads: Threads,
}

impl Model for StoredThreads {
    ghost Value = { List ℕ };

    ghost view = { λ k. k.threads };
}

impl StoredThreads {
    // Keeps the threads of a sheet.
    pub(crate) fn of(threads: Threads) -> StoredThreads
        ensures { result ≡ threads }
    {
        StoredThreads { threads }
    }

    // The task of each thread.
    pub(crate) fn rows(&self) -> &[usize]
        ensures rows { result.now ≡ self.now }
        ensures few { length result.now ≤ 64 }
    {
        self.threads.rows()
    }
}
