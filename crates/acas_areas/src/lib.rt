//! Windows, areas and what the search of them takes, as values within their limits, and how fine their fractions are; and the passes of the
//! search of a contact: flights at numbered points from the low flight of an area to its high flight, and the halving that finds one in
//! contact between them. Which flight is found is a definition; what holds of it is in `acas_pass_lemmas`.
#![tactic(auto)]

mod fineness;
mod halving;
mod laws;
mod parts;
mod steps;

pub use fineness::{HOLD_PARTS, PULL_PARTS, RATE_PARTS, TIME_PARTS};
pub use halving::{Pass, halve};
pub use laws::{limits_in_numbers, structs_stand_for_their_numbers};
pub use parts::{Asked, BoxState, Chase, Extreme, Moment, Window};
pub use steps::{PULL_STEPS, RATE_STEPS, TIME_STEPS};
