// Numbers of channels.
ghost use Rattle.std.specs.Prelude.{◌≡◌, ◌<◌, ◌≤◌, MatchOption};

// How many object numbers have a list: 0 to 31.
pub const CHANNELS: usize = 32;

// The number of a channel that has a list. Only this crate can name it.
#[derive(Clone, Copy)]
pub struct Channel {
    pub(crate) number: usize,
    ghost below: { number < 32 },
}

impl Channel {
    // A number above 31 has no list. An Option and no TryFrom: nobody tells why.
    pub fn of(number: usize) -> Option<Channel>
        ensures { MatchOption result (31 < number) (λ channel. channel.number ≡ number) }
    {
        if number < CHANNELS {
            Some(Channel { number })
        } else {
            None
        }
    }
}
