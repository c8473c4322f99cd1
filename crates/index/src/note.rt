// Noting an amount.
ghost use Rattle.std.specs.Prelude.{◌≡◌, ℕ, ◌<◌, if◌then◌else◌, nat_eq};
ghost use Rattle.index.specs.Amounts.{amount_in};

use records::limits::MOST_OBJECTS;

// Notes the amount of a channel.
pub(crate) fn note(amounts: &mut [i32; MOST_OBJECTS], channel: usize, amount: i32)
    ensures { (x : ℕ) → x < 32 → amount_in amounts.new x ≡ (if nat_eq channel x then amount else amount_in amounts.old x) }
{
    // By index: after a write through `get_mut` a proof knows no element.
    if channel < MOST_OBJECTS {
        amounts[channel] = amount;
    }
}
