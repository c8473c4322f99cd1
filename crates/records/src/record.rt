// What reading writes: a record a line.
use text::{NOWHERE, Place};

// The record of a line. What a line lacks is 0, and a blank record is all zero: the sheet is the caller's, and this is its
// format, so a record is no enum of the kinds of lines, and its letter is the letter.
#[derive(Clone, Copy, PartialEq, Eq)]
pub struct Record {
    pub letter: char,
    // the object or task that the line declares or names, by number
    pub first: usize,
    // the second object that it names
    pub second: usize,
    // its first plain number: of a level, a count or a word
    pub number: i32,
    // its second plain number: of a level of two fields
    pub extra: i32,
    // the place of the name that it declares
    pub name: Place,
}

// A constant and no Default: other constants and arrays of records name it.
pub const BLANK: Record = Record {
    letter: '\0',
    first: 0,
    second: 0,
    number: 0,
    extra: 0,
    name: NOWHERE,
};
