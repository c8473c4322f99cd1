// What a task starts with, from its Q lines.
ghost use Rattle.std.specs.Prelude.{◌≡◌, ℕ, ◌<◌};
ghost use Rattle.index.specs.Amounts.{amount_in, counted_on};

use crate::note::note;
use records::Record;
use records::limits::MOST_OBJECTS;

// What these Q lines say of each channel. Of a channel the first line counts, so the lines are gone through from the
// last one up; a search for each of the 32 channels would go through them as often.
pub(crate) fn counted_on(counts: &[Record]) -> [i32; MOST_OBJECTS]
    ensures { (x : ℕ) → x < 32 → amount_in result x ≡ counted_on counts.now x }
{
    let mut amounts = [0; MOST_OBJECTS];
    for row in counts.iter().rev() {
        note(&mut amounts, row.first, row.number);
    }
    amounts
}
