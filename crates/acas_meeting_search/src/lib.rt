//! The search of a meeting with an intruder that may change its rate: courses of both aircraft, pass after pass.
#![tactic(auto)]

mod flown;
mod lasts;
mod parts;
mod points;
mod pursuit;
mod search;
mod stage;
mod stage_pass;

pub use parts::{Flown, Turn};
pub use pursuit::Pursuit;
pub use search::meet;
