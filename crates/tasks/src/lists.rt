// The lists of what records declare.
ghost use Rattle.std.specs.Prelude.{◌≡◌, ◌-◌, ◌≤◌, ◌++◌, length, take, replicate};
ghost use Rattle.tasks.specs.Records.{View, no_object, no_task};
ghost use Rattle.tasks.specs.Fronts.{IsFront, front_back, front_length};

use records::limits::{MOST_OBJECTS, MOST_TASKS};
use records::{ObjectRow, TaskRow};
use std::marker::Model;

// The objects and the tasks, each list at the front of its array with rows of nothing behind it, the operations of the task
// that stands open, and how many records there are. Arrays with counts and no list of the library's, for the lists can be
// copied; that the rest is rows of nothing is what makes the view tell the whole value.
#[derive(Clone, Copy)]
pub struct Lists {
    pub(crate) objects: [ObjectRow; MOST_OBJECTS],
    pub(crate) object_count: usize,
    pub(crate) tasks: [TaskRow; MOST_TASKS],
    pub(crate) task_count: usize,
    pub(crate) operations: usize,
    pub(crate) lines: usize,
}

impl Model for Lists {
    ghost Value = { View };

    ghost view = { λ l. record { objects = take l.object_count l.objects; tasks = take l.task_count l.tasks; operations = l.operations; lines = l.lines } };

    ghost invariant = { λ l. IsFront 32 no_object l.object_count l.objects × IsFront 24 no_task l.task_count l.tasks × (l.operations ≤ 512) × (l.lines ≤ 800) };

    ghost inverse = { λ v. record {
      objects = v.objects ++ replicate (32 - length v.objects) no_object;
      object_count = length v.objects;
      tasks = v.tasks ++ replicate (24 - length v.tasks) no_task;
      task_count = length v.tasks;
      operations = v.operations;
      lines = v.lines;
    } };

    ghost inverse_ok = { λ l h i. record {
      objects = front_back 32 no_object l.object_count l.objects h.0 i;
      object_count = front_length 32 no_object l.object_count l.objects h.0 i;
      tasks = front_back 24 no_task l.task_count l.tasks h.1 i;
      task_count = front_length 24 no_task l.task_count l.tasks h.1 i;
      operations = l.operations;
      lines = l.lines;
    } };
}

impl Lists {
    // How many records they are the lists of.
    pub fn len(&self) -> usize
        ensures count { result ≡ self.now.lines }
        ensures few { result ≤ 800 }
        ensures limits { (length self.now.objects ≤ 32) × (length self.now.tasks ≤ 24) × (self.now.operations ≤ 512) }
    {
        self.lines
    }
}
