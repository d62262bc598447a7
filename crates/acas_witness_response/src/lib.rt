//! What is printed of a flight that was found: its response, segment by segment, and a range and a closing speed.
#![tactic(auto)]

mod ranges;
mod reduced;
mod response;

pub use ranges::{of_box, of_cell};
pub use reduced::{open_flight, open_part, open_witness};
pub use response::{held_part, segments_of};
