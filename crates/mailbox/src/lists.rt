// What each kind of mailbox does in its own way, and the mailbox that this makes.
ghost use Rattle.std.specs.Prelude.{◌≡◌, ℕ, ◌<◌, ◌≤◌, length};
ghost use Rattle.model.specs.Mailbox.{MailboxKind, Put};
ghost use Rattle.mailbox.specs.Contract.{Bounded, PutAnswer, TakeAnswer};

use crate::channel::Channel;
use crate::kind::Mailbox;

// The lists of a mailbox in lent memory. Only this crate can name the trait: it is `pub`, in a private module, since the
// public trait below is given for each type that has it.
pub trait Lists {
    type Message: Copy;

    // The messages that wait under each number, earliest first, and the room.
    ghost kind: { MailboxKind Self.Message Self };

    // A number above 31 has no messages and no room.
    ghost bounded: { Bounded kind };

    // The length of the lent memory. That a call keeps it is a fact of two states, which no invariant of one can say, so each
    // call that changes the lists says it.
    ghost lent: { Self → ℕ };

    // How many messages wait.
    fn waiting(&self, channel: Channel) -> usize
        ensures { result ≡ length (kind.waiting self.now channel.number) };

    // How much room there is.
    fn free(&self, channel: Channel) -> usize
        ensures { result ≡ kind.room self.now channel.number };

    // Joins a message to the end of a channel's list, which has room.
    fn join(&mut self, channel: Channel, message: Self::Message)
        requires { 1 ≤ kind.room self.old channel.number }
        ensures put { Put kind self.old channel.number message self.new }
        ensures memory { lent self.new ≡ lent self.old };

    // Removes the first message of a channel's list, if there is one.
    fn leave(&mut self, channel: Channel) -> Option<Self::Message>
        ensures answer { TakeAnswer kind self.old channel.number result self.new }
        ensures memory { lent self.new ≡ lent self.old };
}

impl<L: Lists> Mailbox for L {
    type Message = L::Message;

    ghost kind = { L.kind };

    ghost bounded = { L.bounded };

    fn len(&self, channel: usize) -> usize {
        let Some(channel) = Channel::of(channel) else {
            return 0;
        };
        self.waiting(channel)
    }

    fn room(&self, channel: usize) -> usize {
        let Some(channel) = Channel::of(channel) else {
            return 0;
        };
        self.free(channel)
    }

    // A bool, as the trait has it: whether the message was taken.
    fn put(&mut self, channel: usize, message: L::Message) -> bool
        ensures answer { PutAnswer L.kind self.old channel message result self.new }
        ensures memory { L.lent self.new ≡ L.lent self.old }
    {
        let Some(channel) = Channel::of(channel) else {
            return false;
        };
        if self.free(channel) == 0 {
            return false;
        }
        self.join(channel, message);
        true
    }

    fn take(&mut self, channel: usize) -> Option<L::Message>
        ensures answer { TakeAnswer L.kind self.old channel result self.new }
        ensures memory { L.lent self.new ≡ L.lent self.old }
    {
        let channel = Channel::of(channel)?;
        self.leave(channel)
    }
}
