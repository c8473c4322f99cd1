// What records declare and start: the lists of their objects and tasks, and the threads of a plan.
#![tactic(auto)]

mod crew;
mod lists;
mod parts;
mod push;
mod table;
mod threads;

pub use lists::Lists;
pub use parts::{Tasks, leading_counts, leading_operations, rest};
pub use table::Threads;
