//! The drill: a large valid input that is made from a number, compiled, accepted and audited.
#![tactic(auto)]

mod counts;
mod drill_command;
mod lines;
mod table;

pub use drill_command::drill;
