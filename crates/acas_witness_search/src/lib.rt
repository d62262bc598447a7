//! The search of a flight that ends in contact: its passes, one after the other.
#![tactic(auto)]

mod first;
mod guess;
mod lasts;
mod plans;
mod quantity;
mod search;
mod survey;

pub use lasts::rate_steps_between;
pub use plans::{falling_place, rising_place};
pub use quantity::Quantity;
pub use search::through;
pub use survey::Survey;
