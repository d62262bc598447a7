//! The command `risk`: how likely contact is under a table's policy and without it, and what that policy costs.
#![tactic(auto)]

mod risk_command;

pub use risk_command::risk;
