// Mailboxes: for each object number from 0 to 31 a list of waiting messages, earliest first, and a room.
// Two kinds, each over memory that the caller lends, proved against one contract.
#![tactic(auto)]

mod channel;
mod entry;
mod kind;
mod lanes;
mod lanes_mail;
mod lists;
mod pool;
mod pool_mail;
mod ring;

pub use channel::CHANNELS;
pub use entry::Entry;
pub use kind::Mailbox;
pub use lanes::Lanes;
pub use pool::Pool;
