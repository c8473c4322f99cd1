// What each message carries, from the W lines.
ghost use Rattle.std.specs.Prelude.{◌≡◌, ℕ, ◌<◌, pos, if◌then◌else◌};
ghost use Rattle.index.specs.Amounts.{amount_at, carried_by, carries_of, natural};

use crate::note::note;
use records::Record;
use records::limits::MOST_OBJECTS;

// Notes what a W line says of its pair.
fn note_carried(rows: &mut [[i32; MOST_OBJECTS]; MOST_OBJECTS], row: Record)
    ensures { (c d : ℕ) → c < 32 → d < 32 → amount_at rows.new c d ≡ (if carries_of row c d then pos (natural row.number) else amount_at rows.old c d) }
{
    if row.letter == 'W' && row.first < MOST_OBJECTS {
        note(&mut rows[row.first], row.second, row.number.max(0));
    }
}

// What a message on each channel carries of each channel. Of a pair the first W line counts, so the lines are gone
// through from the last one up; a lookup for each of the 1024 pairs would go through them as often.
pub(crate) fn carried_by(records: &[Record]) -> [[i32; MOST_OBJECTS]; MOST_OBJECTS]
    ensures { (c d : ℕ) → c < 32 → d < 32 → amount_at result c d ≡ pos (carried_by records.now c d) }
{
    let mut rows = [[0; MOST_OBJECTS]; MOST_OBJECTS];
    for row in records.iter().rev() {
        note_carried(&mut rows, *row);
    }
    rows
}
