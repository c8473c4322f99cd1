// Places in the text.
ghost use Rattle.std.specs.Prelude.{◌≡◌};
ghost use Rattle.text.specs.Text.{bytes_at};

// Where a field or a name stands: its start, counted in bytes from the start of the text, and its length.
#[derive(Clone, Copy, PartialEq, Eq, Default)]
pub struct Place {
    pub start: usize,
    pub size: usize,
}

// A constant, for other constants to name it.
pub const NOWHERE: Place = Place { start: 0, size: 0 };

// The place of a line, and whether byte 10 ends it. No Option: a line that is not ended has a place too, and is refused there.
#[derive(Clone, Copy)]
pub struct Line {
    pub place: Place,
    pub ended: bool,
}

impl Place {
    // The bytes at the place, or as many as the text has there.
    pub fn bytes(self, text: &[u8]) -> &[u8]
        ensures { result.now ≡ bytes_at text.now self }
    {
        let rest = text.get(self.start..).unwrap_or_default();
        rest.get(..self.size).unwrap_or(rest)
    }
}
