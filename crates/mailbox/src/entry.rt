// A place in the memory of a pool: a message, and the channel that it waits on. The number may be any, for the caller
// lends the memory with what it holds.
#[derive(Clone, Copy)]
pub struct Entry<T: Copy> {
    pub channel: usize,
    pub message: T,
}
