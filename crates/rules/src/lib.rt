// The rules of a step: which rule it breaks, and what it does to the account of its thread. The walk of the clearer
// goes by these two calls, and so are the moves of a run to go.
#![tactic(auto)]

mod account;
mod counts;
mod judging;
mod performing;
mod rule;
mod searches;

pub use account::Account;
pub use judging::judge;
pub use performing::perform;
pub use rule::{Offence, Rule};
