// What is looked at after all lines.
ghost use Rattle.std.specs.Prelude.{◌≡◌};
ghost use Rattle.text.specs.Text.{some};
ghost use Rattle.tasks.specs.Records.{tasks_of, view_of};
ghost use Rattle.reader.specs.Reading.{some_task, is_start_of, started_from, others_started, main_without_counts, few_threads_and_sends, finished};

use crate::ensure::ensure;
use crate::uses::last_task_line;
use records::limits::MOST_SENDS;
use records::{ReadFault, Record, TaskRow};
use tasks::{Lists, Tasks, Threads, leading_counts, rest};

// There is a task.
fn has_task(rows: &[TaskRow]) -> Result<(), ReadFault>
    ensures { result ≡ some_task rows.now }
{
    ensure(!rows.is_empty(), ReadFault::NoTask)
}

// Whether some F line names the task.
fn is_started(task: usize, records: &[Record]) -> bool
    ensures { result ≡ some (is_start_of task) records.now }
{
    records
        .iter()
        .any(|row| row.letter == 'F' && row.first == task)
}

// Each of these tasks is named by some F line.
fn all_started(records: &[Record], rows: &[TaskRow]) -> Result<(), ReadFault>
    ensures { result ≡ started_from records.now 0 rows.now }
{
    for (k, task) in rows.iter().enumerate() {
        ensure(
            is_started(k, records),
            ReadFault::NeverStarted { line: task.line },
        )?;
    }
    Ok(())
}

// Each task but the last is named by some F line.
fn others_started(tasks: &Tasks) -> Result<(), ReadFault>
    ensures { result ≡ others_started tasks.now.records.now tasks.now.rows.now }
{
    all_started(tasks.records, &tasks.rows[..tasks.main()])
}

// The last task has no Q lines.
fn main_without_counts(tasks: &Tasks) -> Result<(), ReadFault>
    ensures { result ≡ main_without_counts tasks.now.records.now tasks.now.rows.now }
{
    let line = last_task_line(tasks.rows);
    ensure(
        leading_counts(rest(tasks.records, line)) == 0,
        ReadFault::MainHasCounts { line },
    )
}

// At most 64 threads, and at most 1,000 sends.
fn few_threads_and_sends(tasks: &Tasks) -> Result<(), ReadFault>
    ensures { result ≡ few_threads_and_sends tasks.now.records.now tasks.now.rows.now }
{
    let threads = Threads::of(tasks).ok_or(ReadFault::TooManyThreads)?;
    ensure(threads.sends(tasks) <= MOST_SENDS, ReadFault::TooManySends)
}

fn finish_tasks(tasks: &Tasks) -> Result<(), ReadFault>
    ensures { result ≡ finished tasks.now.records.now tasks.now.rows.now }
{
    has_task(tasks.rows)?;
    others_started(tasks)?;
    main_without_counts(tasks)?;
    few_threads_and_sends(tasks)
}

// The faults that only all lines together have. The lists are those of the records, as for a line.
pub fn finish(records: &[Record], lists: &Lists) -> Result<(), ReadFault>
    requires { lists.now ≡ view_of records.now }
    ensures { result ≡ finished records.now (tasks_of records.now) }
{
    finish_tasks(&Tasks {
        records,
        rows: lists.task_rows(),
    })
}
