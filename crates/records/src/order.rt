// Wait orders, and how a text writes their levels.
ghost use Rattle.std.specs.Prelude.{◌≡◌, ℕ, ◌≤◌, Bool, true, false, ℤ};
ghost use Rattle.records.specs.Order.{Written};

use text::Range;

// A wait order: what a wait level is, and when one is below another. Both are the order's own: `below` has laws, and
// `level` takes two numbers as a record keeps them, so they are neither a derived order nor a From.
// A level is made from any two numbers, as a record keeps them.
pub trait WaitOrder {
    type Level: Copy;

    ghost below: { Self.Level → Self.Level → Bool };

    ghost made: { ℤ → ℤ → Self.Level };

    fn level(number: i32, extra: i32) -> Self::Level
        ensures { result ≡ made number extra };

    fn below(x: &Self::Level, y: &Self::Level) -> bool
        ensures { result ≡ below x.now y.now };

    ghost irreflexive: { (x : Self.Level) → below x x ≡ false };

    ghost transitive: { (x y z : Self.Level) → below x y ≡ true → below y z ≡ true → below x z ≡ true };
}

// A wait order that a plan text can be written under: its header word, how many fields a level takes, and their ranges.
pub trait WrittenOrder: WaitOrder {
    const FIELDS: usize;

    ghost FIELDS: { ℕ };

    ghost written: { Written };

    fn header_word() -> [u8; 4]
        ensures { result ≡ written.word };

    fn first_range() -> Range
        ensures { result ≡ written.first };

    // Of the second field, where a level has two. No Option: FIELDS says whether there is one, and an order of one field names
    // a range that nothing asks for.
    fn second_range() -> Range
        ensures { result ≡ written.second };

    ghost counted: { FIELDS ≡ written.fields };

    ghost one_or_two: { (1 ≤ written.fields) × (written.fields ≤ 2) };
}
