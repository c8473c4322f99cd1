// The fields of a line. A field is a place in the text; commas part them.
ghost use Rattle.std.specs.Prelude.{◌≡◌, ◌+◌, ◌^◌, ◌<◌, ◌≤◌, ◌∷◌, length, slice_index_or};
ghost use Rattle.text.specs.Text.{fields, fields_from, nowhere};

use crate::bytes::first_of;
use crate::place::{Line, NOWHERE, Place};

// The fields of a line that are still to come.
#[derive(Clone, Copy)]
pub struct Fields<'a> {
    // where the line begins in its text
    base: usize,
    // the whole line, and where the next field begins in it: no rest of it, since places count from the start of the text;
    // past the end of the line there is none
    line: &'a [u8],
    from: usize,
    ghost fits: { base + length line.now < 2 ^ 64 },
    ghost inside: { from ≤ length line.now + 1 },
}

impl Fields<'_> {
    // The size of the next field: it ends at its comma, or with the line, and the one after it begins after that.
    fn size(&self) -> usize
        requires { self.now.from ≤ length self.now.line.now }
        ensures cuts { fields_from self.now.base self.now.line.now self.now.from ≡ (record { start = self.now.base + self.now.from; size = result }) ∷ fields_from self.now.base self.now.line.now (self.now.from + result + 1) }
        ensures inside { self.now.from + result ≤ length self.now.line.now }
    {
        let rest = &self.line[self.from..];
        first_of(rest, b',').unwrap_or(rest.len())
    }
}

impl<'a> Iterator for Fields<'a> {
    ghost use Rattle.text.specs.Left.{fields_left};
    ghost use Rattle.std.specs.Iterator.{YieldsFirst, item_count};

    type Item = Place;

    ghost next_gives = { YieldsFirst fields_left };

    ghost remaining = { item_count fields_left };

    fn next(&mut self) -> Option<Place> {
        if self.from > self.line.len() {
            return None;
        }
        let start = self.base + self.from;
        let size = self.size();
        self.from += size + 1;
        Some(Place { start, size })
    }
}

impl Line {
    ghost use Rattle.text.specs.Left.{fields_left};

    // The fields of the line.
    pub fn fields(self, text: &[u8]) -> Fields<'_>
        ensures { fields_left result ≡ fields text.now self }
    {
        Fields {
            base: self.place.start,
            line: self.place.bytes(text),
            from: 0,
        }
    }

    // How many fields the line has.
    pub fn field_count(self, text: &[u8]) -> usize
        ensures { result ≡ length (fields text.now self) }
    {
        self.fields(text).count()
    }

    // The field with this number, from 0; an empty one where the line has fewer. No Option: a field that is missing is read
    // like an empty one, which has no letter, no form and no word, so that no reader of a field has two cases.
    pub fn field(self, text: &[u8], number: usize) -> Place
        ensures { result ≡ slice_index_or (fields text.now self) number nowhere }
    {
        self.fields(text).nth(number).unwrap_or(NOWHERE)
    }
}
