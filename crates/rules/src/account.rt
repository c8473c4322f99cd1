// The account of a thread, and the locks that it holds.
use records::limits::MOST_OBJECTS;

#[derive(Clone, Copy)]
pub struct Account {
    // of each channel: above zero credits, the right to receive; below zero debts, what the thread owes
    pub counts: [i32; MOST_OBJECTS],
    // which locks the thread holds
    pub locks: [bool; MOST_OBJECTS],
}
