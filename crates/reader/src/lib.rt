// Reading a plan text into a sheet of records, and checking a sheet against its text.
#![tactic(auto)]

mod ensure;
mod finish;
mod forms;
mod header;
mod known;
mod readers;
mod reading;
mod section;
mod sheet;
mod uses;

pub use header::is_written_in;
pub use sheet::{check, read};
