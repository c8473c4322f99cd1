// What the parts of a line have to be: each step answers what it found, or a cause.
ghost use Rattle.std.specs.Prelude.{◌≡◌};
ghost use Rattle.reader.specs.Lines.{field_bytes, sound, letter_after, counted, name_at, number_at, word_at, not_zero, second_at, level_at};

use crate::ensure::ensure;
use crate::known::Known;
use crate::section::Section;
use records::limits::LINE_BYTES;
use records::{Cause, WrittenOrder};
use text::{Class, Place, Range, is_name, number_in};

// The count is not zero.
pub fn is_not_zero(count: i32) -> Result<(), Cause>
    ensures { result ≡ not_zero count }
{
    ensure(count != 0, Cause::Form)
}

impl Known<'_> {
    // The line is ended by byte 10, is not too long, and has legal bytes.
    pub fn is_sound(&self) -> Result<(), Cause>
        ensures { result ≡ sound self.now.text.now self.now.line }
    {
        let bytes = self.line.place.bytes(self.text);
        ensure(
            self.line.ended && self.line.place.size <= LINE_BYTES && Class::Legal.has_all(bytes),
            Cause::Bytes,
        )
    }

    // The bytes of the field with this number.
    fn field_bytes(&self, n: usize) -> &[u8]
        ensures { result.now ≡ field_bytes self.now.text.now self.now.line n }
    {
        self.line.field(self.text, n).bytes(self.text)
    }

    // The letter of the line, if its first field is one letter and the line stands in its section.
    pub fn letter_in_section(&self) -> Result<char, Cause>
        ensures { result ≡ letter_after self.now.text.now self.now.records.now self.now.line }
    {
        match self.field_bytes(0) {
            [letter] if Section::after(self.records).admits(*letter as char) => Ok(*letter as char),
            _ => Err(Cause::Letter),
        }
    }

    // The line has so many fields.
    pub fn has_fields(&self, n: usize) -> Result<(), Cause>
        ensures { result ≡ counted self.now.text.now self.now.line n }
    {
        ensure(self.line.field_count(self.text) == n, Cause::Count)
    }

    // The field is a name.
    pub fn name_at(&self, n: usize) -> Result<Place, Cause>
        ensures { result ≡ name_at self.now.text.now self.now.line n }
    {
        let place = self.line.field(self.text, n);
        ensure(is_name(place.bytes(self.text)), Cause::Form)?;
        Ok(place)
    }

    // The field is a number in the range.
    pub fn number_at(&self, n: usize, range: Range) -> Result<i32, Cause>
        ensures { result ≡ number_at self.now.text.now self.now.line n range }
    {
        number_in(self.field_bytes(n), range).ok_or(Cause::Form)
    }

    // The field is this word.
    pub fn word_at(&self, n: usize, word: &[u8]) -> Result<(), Cause>
        ensures { result ≡ word_at self.now.text.now self.now.line n word.now }
    {
        ensure(self.field_bytes(n) == word, Cause::Form)
    }

    // The second number of a level, 0 where the order writes one.
    fn second_at<O: WrittenOrder>(&self) -> Result<i32, Cause>
        ensures { result ≡ second_at O.WrittenOrder.written self.now.text.now self.now.line }
    {
        if O::FIELDS == 2 {
            self.number_at(3, O::second_range())
        } else {
            Ok(0)
        }
    }

    // The two numbers of a level, as a record keeps them.
    pub fn level_at<O: WrittenOrder>(&self) -> Result<(i32, i32), Cause>
        ensures { result ≡ level_at O.WrittenOrder.written self.now.text.now self.now.line }
    {
        let number = self.number_at(2, O::first_range())?;
        let extra = self.second_at::<O>()?;
        Ok((number, extra))
    }
}
