// The threads of a plan, in the order of their numbers.
ghost use Rattle.std.specs.Prelude.{◌≡◌, ℕ, ◌<◌, ◌≤◌, length, sum_by, MatchOption};
ghost use Rattle.tasks.specs.Threads.{moves_of, sends_of, threads_in};

use crate::parts::Tasks;
use crate::table::Threads;

impl Threads {
    // The threads of the main task; none where there are more than 64.
    pub fn of(tasks: &Tasks) -> Option<Threads>
        ensures { MatchOption result (64 < length (threads_in tasks.now.records.now tasks.now.rows.now)) (λ t. t ≡ threads_in tasks.now.records.now tasks.now.rows.now) }
    {
        let main = tasks.main();
        tasks.few_threads(main)?;
        let mut table = Threads::none();
        tasks.add_threads(main, &mut table);
        Some(table)
    }

    // The task of each thread.
    pub fn rows(&self) -> &[usize]
        ensures rows { result.now ≡ self.now }
        ensures few { length result.now ≤ 64 }
    {
        &self.tasks[..self.count]
    }

    // Moves and sends are two chains of one line each; a shared one would take what it sums as a closure, and be longer.

    // The moves of all these threads: their operations, and one closing each.
    pub fn moves(&self, tasks: &Tasks) -> usize
        ensures { result ≡ sum_by (moves_of tasks.now.records.now tasks.now.rows.now) self.now }
    {
        self.rows()
            .iter()
            .map(|task| tasks.body_of(*task).len() + 1)
            .sum()
    }

    // The sends of all these threads.
    pub fn sends(&self, tasks: &Tasks) -> usize
        ensures { result ≡ sum_by (sends_of tasks.now.records.now tasks.now.rows.now) self.now }
    {
        self.rows().iter().map(|task| tasks.sends_of(*task)).sum()
    }
}
