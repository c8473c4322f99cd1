// The limits of a plan.

// The longest text, in bytes.
pub const MOST_BYTES: usize = 32768;

// The longest line, in bytes, without the byte 10 that ends it.
pub const LINE_BYTES: usize = 40;

// The most lines of a text, and the fewest records of a sheet.
pub const MOST_LINES: usize = 800;

pub const MOST_OBJECTS: usize = 32;

pub const MOST_TASKS: usize = 24;

// The most operations of a task.
pub const MOST_OPERATIONS: usize = 512;

pub const MOST_THREADS: usize = 64;

// The most sends of all threads together.
pub const MOST_SENDS: usize = 1000;
