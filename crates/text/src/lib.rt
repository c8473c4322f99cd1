// The text layer of a plan: bytes, lines, fields, names and numbers. Every call takes any text.
#![tactic(auto)]

mod bytes;
mod fields;
mod lines;
mod names;
mod numbers;
mod place;
mod range;

pub use bytes::Class;
pub use fields::Fields;
pub use lines::Lines;
pub use names::is_name;
pub use numbers::number_in;
pub use place::{Line, NOWHERE, Place};
pub use range::Range;
