//! The two curves of an advisory as exact fractions.
#![tactic(auto)]

mod curve;
mod ratio;

pub use curve::{approach, held, held_ratio, numerator, pull_parts, rate_parts, time_parts};
pub use ratio::Ratio;
