// Reading and changing an account.
ghost use Rattle.std.specs.Prelude.{◌≡◌, ℕ, ◌<◌, false, length, pos, ◌+ℤ◌, ◌-ℤ◌, ◌≤ℤ◌, if◌then◌else◌, nat_eq, slice_index_or};
ghost use Rattle.std.specs.Int.{int_wrap, w32};
ghost use Rattle.index.specs.Amounts.{amount_in};
ghost use Rattle.model.specs.Program.{same};
ghost use Rattle.model.specs.Rules.{busy, owes as owing};
ghost use Rattle.rules.specs.Accounts.{count_of, held_by, empty_account};

use crate::account::Account;
use records::limits::MOST_OBJECTS;

impl Account {
    // An account that reads zero everywhere.
    pub fn empty() -> Account
        ensures { result ≡ empty_account }
    {
        Account {
            counts: [0; MOST_OBJECTS],
            locks: [false; MOST_OBJECTS],
        }
    }

    // An account has a count and a lock for each of the 32 objects; for a caller that knows it only by a `&mut`.
    pub fn whole(&self)
        ensures counts { length self.now.counts ≡ 32 }
        ensures locks { length self.now.locks ≡ 32 }
    {}

    // The count of a channel.
    pub fn count(&self, channel: usize) -> i32
        ensures { result ≡ count_of self.now channel }
    {
        if channel < MOST_OBJECTS {
            self.counts[channel]
        } else {
            0
        }
    }

    // Whether a lock is held.
    pub fn holds(&self, lock: usize) -> bool
        ensures { result ≡ held_by self.now lock }
    {
        lock < MOST_OBJECTS && self.locks[lock]
    }

    // Whether a channel is owed.
    pub fn owes(&self, channel: usize) -> bool
        ensures { result ≡ owing (count_of self.now) channel }
    {
        self.count(channel) < 0
    }

    // Whether an object is owed or held.
    pub fn is_busy(&self, object: usize) -> bool
        ensures { result ≡ busy (count_of self.now) (held_by self.now) object }
    {
        self.owes(object) || self.holds(object)
    }
}

// One of the channel itself, none of any other.
fn own(channel: usize, other: usize) -> i32
    ensures { result ≡ pos (same other channel) }
{
    if other == channel { 1 } else { 0 }
}

// The three that follow go through two tables by the number of a channel: after a write through an adapter of `iter_mut`
// nothing is known of what was written. To add and to take away differ in the operation of each count, which a closure would
// have to bring.

// What a send adds to each count: one of its channel, less what the message carries. A receive takes the same away.
pub(crate) fn gained(channel: usize, carried: &[i32; MOST_OBJECTS]) -> [i32; MOST_OBJECTS]
    requires { (x : ℕ) → x < 32 → pos 0 ≤ℤ amount_in carried.now x }
    ensures { (x : ℕ) → x < 32 → amount_in result x ≡ pos (same x channel) -ℤ amount_in carried.now x }
{
    let mut amounts = [0; MOST_OBJECTS];
    for i in 0..MOST_OBJECTS {
        amounts[i] = own(channel, i) - carried[i];
    }
    amounts
}

// Adds an amount to each count. No account of a plan leaves -51,300 to 51,300, so that nothing wraps in one.
pub(crate) fn add(counts: &mut [i32; MOST_OBJECTS], amounts: &[i32; MOST_OBJECTS])
    ensures { (x : ℕ) → x < 32 → amount_in counts.new x ≡ int_wrap w32 (amount_in counts.old x +ℤ amount_in amounts.now x) }
{
    for i in 0..MOST_OBJECTS {
        counts[i] = counts[i].wrapping_add(amounts[i]);
    }
}

// Takes an amount from each count.
pub(crate) fn subtract(counts: &mut [i32; MOST_OBJECTS], amounts: &[i32; MOST_OBJECTS])
    ensures { (x : ℕ) → x < 32 → amount_in counts.new x ≡ int_wrap w32 (amount_in counts.old x -ℤ amount_in amounts.now x) }
{
    for i in 0..MOST_OBJECTS {
        counts[i] = counts[i].wrapping_sub(amounts[i]);
    }
}

// Holds a lock, or holds it no more.
pub(crate) fn set_lock(locks: &mut [bool; MOST_OBJECTS], lock: usize, held: bool)
    ensures { (x : ℕ) → x < 32 → slice_index_or locks.new x false ≡ (if nat_eq x lock then held else slice_index_or locks.old x false) }
{
    if lock < MOST_OBJECTS {
        locks[lock] = held;
    }
}
