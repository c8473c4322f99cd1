// Rings.
ghost use Rattle.std.specs.Prelude.{◌≡◌, ◌+◌, ◌-◌, ◌*◌, ◌^◌, ◌<◌, ◌≤◌, replicate};
ghost use Rattle.mailbox.specs.Ring.{around, no_messages, Within};

use crate::channel::CHANNELS;

// How the messages of a channel stand in its lane: the place of the first, and how many wait from there on. Past its
// end a lane goes on at its start.
// The size of a lane is that of all lanes, so it is handed in, and that a ring is within it is required and no invariant.
#[derive(Clone, Copy)]
pub(crate) struct Ring {
    pub(crate) head: usize,
    pub(crate) count: usize,
}

impl Ring {
    // A ring for each channel, with no messages.
    pub(crate) fn empty() -> [Ring; CHANNELS]
        ensures { result ≡ replicate 32 no_messages }
    {
        [Ring { head: 0, count: 0 }; CHANNELS]
    }

    // The two places of a ring stand apart, so that a contract says which is which.

    // The place of the first message, in a lane of this size.
    pub(crate) fn first_place(self, size: usize) -> usize
        requires { Within size self × (0 < size) }
        ensures inside { result < size }
        ensures place { result ≡ around size self.head 0 }
    {
        self.place_after(size, 0)
    }

    // The place of the next message.
    pub(crate) fn next_place(self, size: usize) -> usize
        requires { Within size self × (self.count < size) }
        ensures inside { result < size }
        ensures place { result ≡ around size self.head self.count }
    {
        self.place_after(size, self.count)
    }

    // The place so many steps after the head.
    fn place_after(self, size: usize, steps: usize) -> usize
        requires { Within size self × (steps < size) }
        ensures inside { result < size }
        ensures place { result ≡ around size self.head steps }
    {
        let left = size - self.head;
        if steps < left {
            self.head + steps
        } else {
            steps - left
        }
    }
}
