//! When an area of states is clear of contact under an advisory: windows of horizontal contact, the curves that bound the climbs of
//! all flights that meet the advisory, and the least and greatest gaps to the intruder.
#![tactic(auto)]

mod borders;
mod chase;
mod clear;
mod demand;
mod extreme;
mod least;
mod nearest;
mod numbers;
mod window;

pub use borders::{high_chase, low_chase};
pub use chase::{climb_at, moment_of, over};
pub use clear::is_clear;
pub use demand::{asked_by, highest, lowest};
pub use extreme::{high_extreme, low_extreme};
pub use numbers::{minus, natural};
pub use window::{time_of, window_of_box, window_of_cell};
