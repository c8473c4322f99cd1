// The words of the reader: records, rows of objects and tasks with their lookup, faults, limits, and wait orders.
#![tactic(auto)]

mod fault;
pub mod limits;
mod lookup;
mod order;
mod record;
mod rows;

pub use fault::{Cause, Layer, ReadFault};
pub use lookup::{Named, find};
pub use order::{WaitOrder, WrittenOrder};
pub use record::{BLANK, Record};
pub use rows::{Kind, ObjectRow, TaskRow};
