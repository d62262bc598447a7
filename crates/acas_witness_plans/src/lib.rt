//! Flights of the search in numbers: where each leads, and where it ends.
#![tactic(auto)]

mod flown;
mod numbers;
mod plan;
mod points;

pub use flown::{clearance, fly, is_in_contact, is_under};
pub use numbers::{difference_parts, known, natural};
pub use plan::{Outcome, Plan};
pub use points::{end_parts, hold_at, place, pull_at, rate_at, rate_steps, ratio, time_place};
