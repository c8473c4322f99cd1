// What a line is read against.
use records::Record;
use tasks::Lists;
use text::Line;

// A line, the text in which it stands, the records of the lines before it, and the lists of what these declare.
#[derive(Clone, Copy)]
pub struct Known<'a> {
    pub text: &'a [u8],
    pub records: &'a [Record],
    pub lists: &'a Lists,
    pub line: Line,
}
