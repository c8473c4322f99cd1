// The wait orders, and the clearing of a plan.
#![tactic(auto)]

mod clearance;
mod clearing;
mod fault;
mod guard;
mod level;
mod rank;
mod samples;
mod walk;
mod zone;

pub use clearance::Clearance;
pub use clearing::clear;
pub use fault::ClearFault;
pub use level::ZoneLevel;
pub use rank::Rank;
pub use samples::{samples_hold, verdicts_hold};
pub use zone::Zone;
