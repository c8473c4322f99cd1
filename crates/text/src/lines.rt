// The lines of a text.
ghost use Rattle.std.specs.Prelude.{◌≡◌, ◌<◌, [], length, MatchOption};
ghost use Rattle.text.specs.Text.{lines, lines_from, LineAt};

use crate::bytes::first_of;
use crate::place::{Line, Place};

// The lines of a text that are still to come.
#[derive(Clone, Copy)]
pub struct Lines<'a> {
    // the whole text, and where the next line begins: no rest of it, since places count from the start of the text
    text: &'a [u8],
    from: usize,
}

impl<'a> Lines<'a> {
    ghost use Rattle.text.specs.Left.{lines_left};

    // The lines of a text.
    pub fn of(text: &'a [u8]) -> Lines<'a>
        ensures { lines_left result ≡ lines text.now }
    {
        Lines::after(text, 0)
    }

    // The lines from a place on.
    pub fn after(text: &'a [u8], from: usize) -> Lines<'a>
        ensures left { lines_left result ≡ lines_from text.now from }
        ensures begins { (result.text.now ≡ text.now) × (result.from ≡ from) }
    {
        Lines { text, from }
    }

    // The next line: up to the next byte 10, or to the end of the text.
    fn line(&self) -> Line
        requires { self.now.from < length self.now.text.now }
        ensures { LineAt self.now.text.now self.now.from result }
    {
        let start = self.from;
        let rest = &self.text[start..];
        match first_of(rest, b'\n') {
            Some(size) => Line {
                place: Place { start, size },
                ended: true,
            },
            None => Line {
                place: Place {
                    start,
                    size: rest.len(),
                },
                ended: false,
            },
        }
    }
}

impl Lines<'_> {
    ghost use Rattle.text.specs.Left.{lines_left};

    // The next line, or none where the text has ended; it is not gone past.
    pub fn peek(&self) -> Option<Line>
        ensures { MatchOption result (lines_left self.now ≡ []) (LineAt self.now.text.now self.now.from) }
    {
        if self.from >= self.text.len() {
            return None;
        }
        Some(self.line())
    }
}

impl<'a> Iterator for Lines<'a> {
    ghost use Rattle.text.specs.Left.{lines_left};
    ghost use Rattle.std.specs.Iterator.{YieldsFirst, item_count};

    type Item = Line;

    ghost next_gives = { YieldsFirst lines_left };

    ghost remaining = { item_count lines_left };

    // The line after this one begins after its byte 10.
    fn next(&mut self) -> Option<Line> {
        let line = self.peek()?;
        self.from = line.place.start + line.place.size + 1;
        Some(line)
    }
}
