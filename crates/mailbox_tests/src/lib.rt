// Code over mailboxes of any kind, and tests of it at both kinds.
#![tactic(auto)]

ghost use Rattle.std.specs.Prelude.{◌≡◌};
ghost use Rattle.mailbox_tests.specs.Alike.{Alike};

use mailbox::{CHANNELS, Mailbox};

// A put to two mailboxes with the same lists: where both or neither take the message, the lists stay the same.
pub fn put_both<A1: Mailbox, B1: Mailbox<Message = A1::Message>>(
    a: &mut A1,
    b: &mut B1,
    channel: usize,
    message: A1::Message,
) -> (bool, bool)
    ensures { Alike A1.Mailbox.kind B1.Mailbox.kind a.old b.old → result.0 ≡ result.1 → Alike A1.Mailbox.kind B1.Mailbox.kind a.new b.new }
{
    let first = a.put(channel, message);
    let second = b.put(channel, message);
    (first, second)
}

// A take from two mailboxes with the same lists: the answers are the same, and the lists stay the same.
pub fn take_both<A1: Mailbox, B1: Mailbox<Message = A1::Message>>(
    a: &mut A1,
    b: &mut B1,
    channel: usize,
) -> (Option<A1::Message>, Option<A1::Message>)
    ensures answers { Alike A1.Mailbox.kind B1.Mailbox.kind a.old b.old → result.0 ≡ result.1 }
    ensures lists { Alike A1.Mailbox.kind B1.Mailbox.kind a.old b.old → Alike A1.Mailbox.kind B1.Mailbox.kind a.new b.new }
{
    let first = a.take(channel);
    let second = b.take(channel);
    (first, second)
}

// Whether every number has the same length in two mailboxes.
pub fn same_lengths<A1: Mailbox, B1: Mailbox>(a: &A1, b: &B1) -> bool {
    (0..CHANNELS).all(|channel| a.len(channel) == b.len(channel))
}

// Whether nothing waits under any number.
pub fn is_empty<M1: Mailbox>(mailbox: &M1) -> bool {
    (0..CHANNELS).all(|channel| mailbox.len(channel) == 0)
}

// Whether a mailbox has this room under every number.
pub fn has_room<M1: Mailbox>(mailbox: &M1, room: usize) -> bool {
    (0..CHANNELS).all(|channel| mailbox.room(channel) == room)
}

// A call to a mailbox of words, with the answer that is expected. Data and no closures, with fields by place, since a test
// reads as a table of calls, which two kinds of mailbox answer.
#[derive(Clone, Copy)]
pub enum Call {
    Put(usize, u16, bool),
    Take(usize, Option<u16>),
    Len(usize, usize),
    Room(usize, usize),
}

// Makes a call; whether the answer is the expected one.
pub fn answers<M1: Mailbox<Message = u16>>(mailbox: &mut M1, call: Call) -> bool {
    match call {
        Call::Put(channel, word, accepted) => mailbox.put(channel, word) == accepted,
        Call::Take(channel, word) => mailbox.take(channel) == word,
        Call::Len(channel, length) => mailbox.len(channel) == length,
        Call::Room(channel, room) => mailbox.room(channel) == room,
    }
}

// Makes the calls in turn; whether each answer is the expected one.
pub fn plays<M1: Mailbox<Message = u16>>(mailbox: &mut M1, calls: &[Call]) -> bool {
    calls.iter().all(|call| answers(mailbox, *call))
}

// Takes all that waits under every number; whether both mailboxes give the same messages in the same order.
pub fn drain_alike<A1: Mailbox<Message = u16>, B1: Mailbox<Message = u16>>(
    a: &mut A1,
    b: &mut B1,
) -> bool {
    let alike = (0..CHANNELS).all(|channel| {
        (0..a.len(channel)).all(|_| {
            let (first, second) = take_both(a, b, channel);
            first == second
        })
    });
    alike && is_empty(a) && is_empty(b)
}

#[cfg(test)]
mod tests {
    use super::*;
    use mailbox::{Entry, Lanes, Pool};

    const OLD: Entry<u16> = Entry {
        channel: 3,
        message: 77,
    };

    // Calls that lanes of 3 words and a pool of 6 entries answer alike.
    const BOTH: [Call; 16] = [
        Call::Put(0, 1, true),
        Call::Put(31, 2, true),
        Call::Put(0, 3, true),
        Call::Take(7, None),
        Call::Take(0, Some(1)),
        Call::Put(0, 4, true),
        Call::Put(31, 5, true),
        Call::Put(0, 6, true),
        Call::Take(31, Some(2)),
        Call::Take(0, Some(3)),
        Call::Put(0, 7, true),
        Call::Put(32, 8, false),
        Call::Take(32, None),
        Call::Len(0, 3),
        Call::Len(31, 1),
        Call::Room(32, 0),
    ];

    #[test]
    fn same_calls_same_lists(rt: HostRuntime) {
        let mut words = [9; 96];
        let mut entries = [OLD; 6];
        let mut lanes = Lanes::new(&mut words);
        let mut pool = Pool::new(&mut entries);
        assert!(rt; plays(&mut lanes, &BOTH));
        assert!(rt; plays(&mut pool, &BOTH));
        assert!(rt; same_lengths(&lanes, &pool));
        assert!(rt; drain_alike(&mut lanes, &mut pool));
    }

    #[test]
    fn made_empty(rt: HostRuntime) {
        let mut words = [5u16; 70];
        let mut entries = [OLD; 4];
        let lanes = Lanes::new(&mut words);
        let pool = Pool::new(&mut entries);
        assert!(rt; is_empty(&lanes) && has_room(&lanes, 2));
        assert!(rt; is_empty(&pool) && has_room(&pool, 4));
    }

    #[test]
    fn rooms_of_lanes(rt: HostRuntime) {
        let mut words = [0; 95];
        let mut lanes = Lanes::new(&mut words);
        let calls = [
            Call::Put(4, 10, true),
            Call::Put(4, 11, true),
            Call::Put(4, 12, false),
            Call::Room(4, 0),
            Call::Room(5, 2),
            Call::Take(4, Some(10)),
            Call::Put(4, 13, true),
            Call::Take(4, Some(11)),
            Call::Take(4, Some(13)),
            Call::Take(4, None),
            Call::Room(4, 2),
        ];
        assert!(rt; plays(&mut lanes, &calls));
    }

    #[test]
    fn rooms_of_a_pool(rt: HostRuntime) {
        let mut entries = [OLD; 3];
        let mut pool = Pool::new(&mut entries);
        let calls = [
            Call::Put(4, 10, true),
            Call::Put(5, 11, true),
            Call::Room(6, 1),
            Call::Put(4, 12, true),
            Call::Put(6, 13, false),
            Call::Take(5, Some(11)),
            Call::Take(5, None),
            Call::Room(4, 1),
            Call::Take(4, Some(10)),
            Call::Take(4, Some(12)),
            Call::Room(4, 3),
        ];
        assert!(rt; plays(&mut pool, &calls));
    }

    #[test]
    fn little_memory(rt: HostRuntime) {
        let mut words = [0; 31];
        let mut lanes = Lanes::new(&mut words);
        assert!(rt; plays(&mut lanes, &[Call::Room(0, 0), Call::Put(0, 1, false)]));
    }

    #[derive(Clone, Copy, PartialEq, Debug)]
    struct Pose {
        angle: u16,
        rate: u16,
    }

    #[test]
    fn another_message(rt: HostRuntime) {
        let turned = Pose { angle: 90, rate: 3 };
        let mut poses = [turned; 64];
        let mut lanes = Lanes::new(&mut poses);
        assert!(rt; lanes.put(1, turned));
        assert_eq!(rt; lanes.take(1), Some(turned));
    }
}
