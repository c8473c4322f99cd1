// The threads of a plan, by recursion into the tasks that are started.
ghost use Rattle.std.specs.Prelude.{◌≡◌, ℕ, ◌+◌, ◌<◌, ◌≤◌, ◌++◌, length, min, MatchOption};
ghost use Rattle.tasks.specs.Threads.{body_of, crew, starts as starting};

use crate::parts::Tasks;
use crate::table::Threads;
use records::Record;
use records::limits::MOST_THREADS;

// Whether the operation of a task starts a thread. F names only tasks above.
fn starts(task: usize, row: Record) -> bool
    ensures { result ≡ starting task row }
{
    row.letter == 'F' && row.first < task
}

// A rule of the project: the count of the threads recurses into the tasks that are started, and so does their numbering,
// each in its own words; so there are two recursions.

impl Tasks<'_, '_> {
    // The threads of a task, one and those of every task that its F operations name; none where there are more than 64.
    pub fn few_threads(&self, task: usize) -> Option<usize>
        ensures { MatchOption result (64 < length (crew (body_of self.now.records.now self.now.rows.now) task)) (λ n. (n ≤ 64) × (n ≡ length (crew (body_of self.now.records.now self.now.rows.now) task))) }
    {
        let body = self.body_of(task);
        let mut n = 1;
        for row in body {
            if starts(task, *row) {
                n += self.few_threads(row.first)?;
                if n > MOST_THREADS {
                    return None;
                }
            }
        }
        Some(n)
    }

    // The same as a number for every task: one too many, 65, where there are more than 64.
    pub fn thread_count(&self, task: usize) -> usize
        ensures { result ≡ min 65 (length (crew (body_of self.now.records.now self.now.rows.now) task)) }
    {
        self.few_threads(task).unwrap_or(MOST_THREADS + 1)
    }

    // Adds the tasks of the threads of a task, each thread followed at once by all those it brings about.
    pub(crate) fn add_threads(&self, task: usize, threads: &mut Threads)
        requires { length threads.old + length (crew (body_of self.now.records.now self.now.rows.now) task) ≤ 64 }
        ensures { threads.new ≡ threads.old ++ crew (body_of self.now.records.now self.now.rows.now) task }
    {
        let body = self.body_of(task);
        threads.push(task);
        for row in body {
            if starts(task, *row) {
                self.add_threads(row.first, threads);
            }
        }
    }
}
