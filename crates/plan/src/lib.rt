// A plan, made from a text and the sheet that reading it gives.
#![tactic(auto)]

mod plan;
mod step;
mod steps;
mod stored;

pub use plan::Plan;
pub use step::Step;
