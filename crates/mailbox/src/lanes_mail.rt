// Messages in lanes.
ghost use Rattle.std.specs.Prelude.{◌≡◌, ℕ, ◌+◌, ◌*◌, ◌/◌, ◌<◌, ◌≤◌, [], length};
ghost use Rattle.model.specs.Mailbox.{Put};
ghost use Rattle.mailbox.specs.Contract.{TakeAnswer};
ghost use Rattle.mailbox.specs.LaneLists.{lanes_waiting, lanes_room, lanes_kind, lanes_bounded};

use crate::channel::{CHANNELS, Channel};
use crate::lanes::Lanes;
use crate::lists::Lists;
use crate::ring::Ring;

impl<'a, T: Copy> Lanes<'a, T> {
    // Lanes with every list empty, whatever the memory holds.
    pub fn new(memory: &'a mut [T]) -> Lanes<'a, T>
        ensures lists { (c : ℕ) → lanes_waiting result c ≡ [] }
        ensures rooms { (c : ℕ) → c < 32 → lanes_room result c ≡ length memory.old / 32 }
        ensures memory { length result.memory.now ≡ length memory.old }
    {
        let size = memory.len() / CHANNELS;
        Lanes {
            memory,
            size,
            rings: Ring::empty(),
        }
    }

    // Where in the memory a place of a channel's lane is.
    fn index(&self, channel: Channel, place: usize) -> usize
        requires { place < self.now.size }
        ensures inside { result < length self.now.memory.now }
        ensures place { result ≡ channel.number * self.now.size + place }
    {
        channel.number * self.size + place
    }
}

impl<'a, T: Copy> Lists for Lanes<'a, T> {
    type Message = T;

    ghost kind = { lanes_kind };

    ghost bounded = { lanes_bounded };

    ghost lent = { λ b. length b.memory.now };

    #[tactic(auto, using(crate::proofs::Rings::count_is))]
    fn waiting(&self, channel: Channel) -> usize {
        self.rings[channel.number].count
    }

    #[tactic(auto, using(crate::proofs::Rings::room_is))]
    fn free(&self, channel: Channel) -> usize {
        self.size - self.rings[channel.number].count
    }

    #[tactic(auto, using(crate::proofs::Rings::room_is))]
    fn join(&mut self, channel: Channel, message: T) {
        let ring = self.rings[channel.number];
        let place = ring.next_place(self.size);
        let i = self.index(channel, place);
        self.memory[i] = message;
        self.rings[channel.number].count += 1;
    }

    fn leave(&mut self, channel: Channel) -> Option<T> {
        let ring = self.rings[channel.number];
        if ring.count == 0 {
            return None;
        }
        let place = ring.first_place(self.size);
        let i = self.index(channel, place);
        let message = self.memory[i];
        self.rings[channel.number] = Ring {
            head: place + 1,
            count: ring.count - 1,
        };
        Some(message)
    }
}
