// The table of threads.
ghost use Rattle.std.specs.Prelude.{◌≡◌, ℕ, ◌-◌, ◌<◌, List, [], ◌∷◌, ◌++◌, length, take, replicate};
ghost use Rattle.tasks.specs.Fronts.{IsFront, front_back, front_length};

use records::limits::MOST_THREADS;
use std::marker::Model;

// The task of each thread, at the front of the array, with zeros behind it; as the lists, it can be copied.
#[derive(Clone, Copy)]
pub struct Threads {
    pub(crate) tasks: [usize; MOST_THREADS],
    pub(crate) count: usize,
}

impl Model for Threads {
    ghost Value = { List ℕ };

    ghost view = { λ t. take t.count t.tasks };

    ghost invariant = { λ t. IsFront 64 0 t.count t.tasks };

    ghost inverse = { λ ts. record { tasks = ts ++ replicate (64 - length ts) 0; count = length ts } };

    ghost inverse_ok = { λ t h i. record {
      tasks = front_back 64 0 t.count t.tasks h i;
      count = front_length 64 0 t.count t.tasks h i;
    } };
}

impl Threads {
    // No threads.
    pub(crate) fn none() -> Threads
        ensures { result ≡ [] }
    {
        Threads {
            tasks: [0; MOST_THREADS],
            count: 0,
        }
    }

    // Adds a thread of a task.
    pub(crate) fn push(&mut self, task: usize)
        requires { length self.old < 64 }
        ensures { self.new ≡ self.old ++ task ∷ [] }
    {
        self.tasks[self.count] = task;
        self.count += 1;
    }
}
