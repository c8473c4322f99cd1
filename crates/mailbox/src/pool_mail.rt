// Messages in a pool.
ghost use Rattle.std.specs.Prelude.{◌≡◌, ℕ, ◌<◌, ◌≤◌, [], length, take, ◌==◌, Some};
ghost use Rattle.std.specs.List.{count_by, position};
ghost use Rattle.model.specs.Mailbox.{Put, Take};
ghost use Rattle.mailbox.specs.Contract.{TakeAnswer};
ghost use Rattle.mailbox.specs.PoolLists.{pool_waiting, pool_room, pool_kind, pool_bounded};

use crate::channel::Channel;
use crate::entry::Entry;
use crate::lists::Lists;
use crate::pool::Pool;

impl<'a, T: Copy> Pool<'a, T> {
    // A pool with every list empty, whatever the memory holds.
    #[tactic(auto, using(crate::proofs::Arrivals::room_at_first))]
    pub fn new(memory: &'a mut [Entry<T>]) -> Pool<'a, T>
        ensures lists { (c : ℕ) → pool_waiting result c ≡ [] }
        ensures rooms { (c : ℕ) → c < 32 → pool_room result c ≡ length memory.old }
        ensures memory { length result.memory.now ≡ length memory.old }
    {
        Pool::unused(memory)
    }

    // A pool of which no entry is in use. Apart from `new`, so that the invariant is shown before the lists are looked at.
    fn unused(memory: &'a mut [Entry<T>]) -> Pool<'a, T>
        ensures count { result.count ≡ 0 }
        ensures memory { length result.memory.now ≡ length memory.old }
    {
        Pool { memory, count: 0 }
    }

    // How many entries are of a channel. By a loop: `filter` with `count` takes more than twice as long.
    fn count_of(&self, channel: usize) -> usize
        ensures { result ≡ count_by (λ e. e.channel == channel) (take self.now.count self.now.memory.now) }
    {
        let entries = &self.memory[..self.count];
        let mut n = 0;
        for e in entries {
            if e.channel == channel {
                n += 1;
            }
        }
        n
    }

    // The place of the first entry that is of a channel.
    fn first_of(&self, channel: usize) -> Option<usize>
        ensures { result ≡ position (λ e. e.channel == channel) (take self.now.count self.now.memory.now) }
    {
        let entries = &self.memory[..self.count];
        entries.iter().position(|e| e.channel == channel)
    }

    // Removes the entry at a place, the first of its channel; the entries after it move up by one.
    fn remove(&mut self, channel: Channel, place: usize) -> T
        requires { Some place ≡ position (λ e. e.channel == channel.number) (take self.old.count self.old.memory.now) }
        ensures taken { Take pool_kind self.old channel.number result self.new }
        ensures memory { length self.new.memory.now ≡ length self.old.memory.now }
    {
        let message = self.memory[place].message;
        self.memory[..self.count].copy_within(place + 1.., place);
        self.count -= 1;
        message
    }
}

impl<'a, T: Copy> Lists for Pool<'a, T> {
    type Message = T;

    ghost kind = { pool_kind };

    ghost bounded = { pool_bounded };

    ghost lent = { λ b. length b.memory.now };

    #[tactic(auto, using(crate::proofs::Arrivals::count_is))]
    fn waiting(&self, channel: Channel) -> usize {
        self.count_of(channel.number)
    }

    // The room of a pool is the same under every number.
    #[tactic(auto, using(crate::proofs::Arrivals::room_is))]
    fn free(&self, _channel: Channel) -> usize {
        self.memory.len() - self.count
    }

    #[tactic(auto, using(crate::proofs::Arrivals::room_is))]
    fn join(&mut self, channel: Channel, message: T) {
        self.memory[self.count] = Entry {
            channel: channel.number,
            message,
        };
        self.count += 1;
    }

    fn leave(&mut self, channel: Channel) -> Option<T> {
        let place = self.first_of(channel.number)?;
        Some(self.remove(channel, place))
    }
}
