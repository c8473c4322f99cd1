// What a thread does next.
#[derive(Clone, Copy)]
pub enum Step {
    Send { channel: usize, word: u16 },
    Receive { channel: usize },
    Acquire { lock: usize },
    Release { lock: usize },
    // starts a thread of a task
    Start { task: usize },
    // comes after the last operation
    Closing,
}
