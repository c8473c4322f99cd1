// The index of a plan: what its messages carry and where its tasks stand, found once, so that each is looked up at once.
#![tactic(auto)]

mod carried;
mod entry;
mod index;
mod note;
mod opening;

pub use entry::TaskEntry;
pub use index::Index;
