// A plan that was read.
ghost use Rattle.std.specs.Prelude.{◌≡◌, ℕ, ◌≤◌, length};
ghost use Rattle.std.specs.List.{slice_get};
ghost use Rattle.reader.specs.Reading.{reading, Shows};
ghost use Rattle.plan.specs.Made.{Made};
ghost use Rattle.plan.specs.Meaning.{Meant};
ghost use Rattle.plan.specs.Plans.{WasRead, plan_threads, plan_moves, plan_sends};

use crate::stored::{StoredLists, StoredThreads};
use index::Index;
use records::limits::MOST_LINES;
use records::{Record, WaitOrder, WrittenOrder};
use tasks::{Lists, Tasks, Threads};

// The text and the sheet that reading it gives, with the lists of its objects and tasks, the table of its threads and
// the index of its tasks, made once, and its counts. It cannot be copied: a later stage is made from it and uses it up.
#[derive(Drop)]
pub struct Plan<'a> {
    pub(crate) text: &'a [u8],
    pub(crate) sheet: &'a [Record],
    pub(crate) lists: StoredLists,
    pub(crate) threads: StoredThreads,
    pub(crate) index: Index,
    moves: usize,
    sends: usize,
    ghost read: { WasRead text.now sheet.now },
    ghost long: { 800 ≤ length sheet.now },
    ghost made: { ∥ Made lists threads index sheet.now ∥₁ },
    ghost crew: { threads ≡ plan_threads sheet.now },
    ghost counts: { (moves ≡ plan_moves sheet.now) × (sends ≡ plan_sends sheet.now) },
}

impl<'a> Plan<'a> {
    // Makes the plan of a text and its sheet. It needs what a check that answered Ok says, and cannot refuse.
    pub fn new<O: WrittenOrder>(text: &'a [u8], sheet: &'a [Record]) -> Plan<'a>
        requires { Shows (reading O.WrittenOrder.written text.now (length sheet.now)) sheet.now }
        ensures text { result.text.now ≡ text.now }
        ensures sheet { result.sheet.now ≡ sheet.now }
    {
        let records = &sheet[..MOST_LINES];
        let lists = Lists::of(records);
        let tasks = Tasks {
            records,
            rows: lists.task_rows(),
        };
        let Some(threads) = Threads::of(&tasks) else {
            unreachable!()
        };
        let moves = threads.moves(&tasks);
        let sends = threads.sends(&tasks);
        let index = Index::of(&tasks);
        Plan {
            text,
            sheet,
            lists: StoredLists::of(lists),
            threads: StoredThreads::of(threads),
            index,
            moves,
            sends,
        }
    }

    // The bytes that the plan was read from.
    pub fn text(&self) -> &'a [u8]
        ensures { result.now ≡ self.now.text.now }
    {
        self.text
    }

    // The records of its lines, and then blank ones.
    pub fn sheet(&self) -> &'a [Record]
        ensures { result.now ≡ self.now.sheet.now }
    {
        self.sheet
    }

    // How many threads the plan has.
    pub fn threads(&self) -> usize
        ensures { result ≡ length (plan_threads self.now.sheet.now) }
    {
        self.threads.rows().len()
    }

    // The task of a thread, by number; none where there is no such thread. Thread 0 is of the main task, the last one.
    pub fn task_of(&self, thread: usize) -> Option<usize>
        ensures { result ≡ slice_get (plan_threads self.now.sheet.now) thread }
    {
        self.threads.rows().get(thread).copied()
    }

    // The operations of all threads, and one closing each.
    pub fn moves(&self) -> usize
        ensures { result ≡ plan_moves self.now.sheet.now }
    {
        self.moves
    }

    // The sends of all threads.
    pub fn sends(&self) -> usize
        ensures { result ≡ plan_sends self.now.sheet.now }
    {
        self.sends
    }

    // What the plan means under a wait order: a sound program by task, within the limits of a text, whose threads, moves
    // and sends are those that the plan counts.
    pub fn meaning<O: WaitOrder>(&self)
        ensures { Meant O.WaitOrder.made self.now.sheet.now }
    {}
}
