// One lookup for every kind of named row.
ghost use Rattle.std.specs.Prelude.{◌≡◌, ℕ, ◌<◌, map, length, IfSome};
ghost use Rattle.records.specs.Names.{first_named, named};

use crate::rows::{ObjectRow, TaskRow};

// A row with a name: the place of the name in the text is its start and its length. A rule of the project: each named row
// answers its place as a pair, and the one lookup takes the pair apart; so the two impls stay.
pub trait Named {
    ghost spot: { Self → ℕ × ℕ };

    fn place(&self) -> (usize, usize)
        ensures { result ≡ spot self.now };
}

impl Named for ObjectRow {
    ghost spot = { λ o. (o.name.start, o.name.size) };

    fn place(&self) -> (usize, usize) {
        (self.name.start, self.name.size)
    }
}

impl Named for TaskRow {
    ghost spot = { λ t. (t.name.start, t.name.size) };

    fn place(&self) -> (usize, usize) {
        (self.name.start, self.name.size)
    }
}

// Whether the name stands at this place of the text. A place that is not in the text names nothing.
fn names(text: &[u8], place: (usize, usize), name: &[u8]) -> bool
    ensures { result ≡ named text.now name.now place }
{
    let (start, size) = place;
    text.get(start..)
        .and_then(|rest| rest.get(..size))
        .is_some_and(|bytes| bytes == name)
}

// The first row with the same bytes as the name, or none.
pub fn find<R: Named>(rows: &[R], text: &[u8], name: &[u8]) -> Option<usize>
    ensures first { result ≡ first_named text.now name.now (map R.spot rows.now) }
    ensures inside { IfSome result (λ i. i < length rows.now) }
{
    rows.iter()
        .map(|row| row.place())
        .position(|place| names(text, place, name))
}
