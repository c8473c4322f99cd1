// What every kind of mailbox does.
ghost use Rattle.std.specs.Prelude.{◌≡◌, ℕ, length};
ghost use Rattle.model.specs.Mailbox.{MailboxKind};
ghost use Rattle.mailbox.specs.Contract.{Bounded, PutAnswer, TakeAnswer};

pub trait Mailbox {
    type Message: Copy;

    // The messages that wait under each number, earliest first, and the room.
    ghost kind: { MailboxKind Self.Message Self };

    // A number above 31 has no messages and no room.
    ghost bounded: { Bounded kind };

    // How many messages wait.
    fn len(&self, channel: usize) -> usize
        ensures { result ≡ length (kind.waiting self.now channel) };

    // How much room there is.
    fn room(&self, channel: usize) -> usize
        ensures { result ≡ kind.room self.now channel };

    // Joins a message to the end of the channel's list if there is room; answers whether there was. A bool, since a put
    // answers whether it was taken, and nothing else can be wrong with it.
    fn put(&mut self, channel: usize, message: Self::Message) -> bool
        ensures { PutAnswer kind self.old channel message result self.new };

    // Removes the first message of the channel's list and answers it; none where the list is empty.
    fn take(&mut self, channel: usize) -> Option<Self::Message>
        ensures { TakeAnswer kind self.old channel result self.new };
}
