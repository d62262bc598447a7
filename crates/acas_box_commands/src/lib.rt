//! The commands that rule on each box of a file: `regions`, and `manoeuvre`, against an intruder that may change its rate.
#![tactic(auto)]

mod manoeuvre_command;
mod regions_command;

pub use manoeuvre_command::manoeuvre;
pub use regions_command::regions;
