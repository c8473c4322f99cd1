// A reader for the lines of each letter.
ghost use Rattle.std.specs.Prelude.{◌≡◌};
ghost use Rattle.reader.specs.Lines.{held, read_header, read_object, read_carry, read_task, read_count, read_send, read_use, read_start, by_letter, read_line};

use crate::forms::is_not_zero;
use crate::known::Known;
use records::{BLANK, Cause, Kind, Record, WrittenOrder};
use text::Range;

// How many credits a message may carry.
const CARRIED: Range = Range { low: 1, high: 100 };

// What a task may start with on a channel; 0 aside.
const COUNTS: Range = Range {
    low: -100,
    high: 100,
};

// The words that a message may be.
const WORDS: Range = Range {
    low: 0,
    high: 65535,
};

impl Known<'_> {
    // P,order
    fn read_header<O: WrittenOrder>(&self) -> Result<Record, Cause>
        ensures { result ≡ read_header O.WrittenOrder.written (held self.now) self.now.line }
    {
        self.has_fields(2)?;
        self.word_at(1, &O::header_word())?;
        Ok(Record {
            letter: 'P',
            ..BLANK
        })
    }

    // C,name,level and K,name,level
    fn read_object<O: WrittenOrder>(&self, letter: char) -> Result<Record, Cause>
        ensures { result ≡ read_object O.WrittenOrder.written (held self.now) self.now.line letter }
    {
        self.has_fields(2 + O::FIELDS)?;
        let name = self.name_at(1)?;
        let (number, extra) = self.level_at::<O>()?;
        self.is_new(name)?;
        Ok(Record {
            letter,
            first: self.lists.object_rows().len(),
            number,
            extra,
            name,
            ..BLANK
        })
    }

    // W,carrier,carried,count
    fn read_carry(&self) -> Result<Record, Cause>
        ensures { result ≡ read_carry (held self.now) self.now.line }
    {
        self.has_fields(4)?;
        let carrier = self.name_at(1)?;
        let carried = self.name_at(2)?;
        let number = self.number_at(3, CARRIED)?;
        let first = self.object(Kind::Channel, carrier)?;
        let second = self.object(Kind::Channel, carried)?;
        self.is_new_pair(first, second)?;
        Ok(Record {
            letter: 'W',
            first,
            second,
            number,
            ..BLANK
        })
    }

    // T,name
    fn read_task(&self) -> Result<Record, Cause>
        ensures { result ≡ read_task (held self.now) self.now.line }
    {
        self.has_fields(2)?;
        let name = self.name_at(1)?;
        self.is_new(name)?;
        Ok(Record {
            letter: 'T',
            first: self.lists.task_rows().len(),
            name,
            ..BLANK
        })
    }

    // Q,channel,count
    fn read_count(&self) -> Result<Record, Cause>
        ensures { result ≡ read_count (held self.now) self.now.line }
    {
        self.has_fields(3)?;
        let name = self.name_at(1)?;
        let number = self.number_at(2, COUNTS)?;
        is_not_zero(number)?;
        let first = self.object(Kind::Channel, name)?;
        self.is_new_count(first)?;
        Ok(Record {
            letter: 'Q',
            first,
            number,
            ..BLANK
        })
    }

    // S,channel,word
    fn read_send(&self) -> Result<Record, Cause>
        ensures { result ≡ read_send (held self.now) self.now.line }
    {
        self.has_fields(3)?;
        let name = self.name_at(1)?;
        let number = self.number_at(2, WORDS)?;
        let first = self.object(Kind::Channel, name)?;
        Ok(Record {
            letter: 'S',
            first,
            number,
            ..BLANK
        })
    }

    // R,channel and A,lock and L,lock
    fn read_use(&self, letter: char, kind: Kind) -> Result<Record, Cause>
        ensures { result ≡ read_use (held self.now) self.now.line letter kind }
    {
        self.has_fields(2)?;
        let name = self.name_at(1)?;
        let first = self.object(kind, name)?;
        Ok(Record {
            letter,
            first,
            ..BLANK
        })
    }

    // F,task
    fn read_start(&self) -> Result<Record, Cause>
        ensures { result ≡ read_start (held self.now) self.now.line }
    {
        self.has_fields(2)?;
        let name = self.name_at(1)?;
        let first = self.task_above(name)?;
        Ok(Record {
            letter: 'F',
            first,
            ..BLANK
        })
    }

    // The letter chooses the reader of the line: a match on the letters themselves, as in the rules of a plan, and no table
    // of closures, since the readers take different arguments.
    fn by_letter<O: WrittenOrder>(&self, letter: char) -> Result<Record, Cause>
        ensures { result ≡ by_letter O.WrittenOrder.written letter (held self.now) self.now.line }
    {
        match letter {
            'P' => self.read_header::<O>(),
            'C' => self.read_object::<O>('C'),
            'K' => self.read_object::<O>('K'),
            'W' => self.read_carry(),
            'T' => self.read_task(),
            'Q' => self.read_count(),
            'S' => self.read_send(),
            'R' => self.read_use('R', Kind::Channel),
            'A' => self.read_use('A', Kind::Lock),
            'L' => self.read_use('L', Kind::Lock),
            'F' => self.read_start(),
            _ => Err(Cause::Letter),
        }
    }

    // The record of a line, or what is wrong with it.
    pub fn read_line<O: WrittenOrder>(&self) -> Result<Record, Cause>
        ensures { result ≡ read_line O.WrittenOrder.written (held self.now) self.now.line }
    {
        self.is_sound()?;
        let letter = self.letter_in_section()?;
        self.by_letter::<O>(letter)
    }
}
