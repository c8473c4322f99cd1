// A pool in lent memory.
ghost use Rattle.std.specs.Prelude.{◌≤◌, ◌<◌, length, take};
ghost use Rattle.std.specs.List.{All};

use crate::entry::Entry;

// The caller's memory with all messages at its front, in the order of their arrival. The memory is lent, so how much of it
// is in use stands beside it.
#[derive(Drop)]
pub struct Pool<'a, T: Copy> {
    pub(crate) memory: &'a mut [Entry<T>],
    pub(crate) count: usize,
    ghost fits: { count ≤ length memory.now },
    ghost filed: { All (λ e. e.channel < 32) (take count memory.now) },
}
