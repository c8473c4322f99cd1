// The rows of the reader's lists: the objects and the tasks that are declared.
use text::Place;

// An object is a channel or a lock.
#[derive(Clone, Copy, PartialEq, Eq, Default)]
pub enum Kind {
    #[default]
    Channel,
    Lock,
}

// A declared object: the place of its name, its kind, and the two numbers of its level, which are no struct of their own: a
// record has the first in the same field as a count and a word, and an order makes its level from the two as they stand.
#[derive(Clone, Copy, Default)]
pub struct ObjectRow {
    pub name: Place,
    pub kind: Kind,
    pub number: i32,
    pub extra: i32,
}

// A declared task: the place of its name, and the number of its T line, from 1.
#[derive(Clone, Copy, Default)]
pub struct TaskRow {
    pub name: Place,
    pub line: usize,
}
