// Lanes in lent memory.
ghost use Rattle.std.specs.Prelude.{◌≡◌, ◌/◌, length};
ghost use Rattle.std.specs.List.{All};
ghost use Rattle.mailbox.specs.Ring.{Within};

use crate::channel::CHANNELS;
use crate::ring::Ring;

// The caller's memory in 32 equal lanes, one for each object number, each read as a ring.
#[derive(Drop)]
pub struct Lanes<'a, T: Copy> {
    pub(crate) memory: &'a mut [T],
    // the length of the memory by 32, divided once
    pub(crate) size: usize,
    pub(crate) rings: [Ring; CHANNELS],
    ghost cut: { size ≡ length memory.now / 32 },
    ghost each: { length rings ≡ 32 },
    ghost inside: { All (Within size) rings },
}
