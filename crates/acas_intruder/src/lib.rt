//! The verdict on a box under an advisory against an intruder that may change its rate, with its meeting where it is reported; and the
//! report of a box file.
#![tactic(auto)]

mod courses;
mod prints;
mod report;
mod verdict;

pub use report::write_meetings;
pub use verdict::meet_verdict;
