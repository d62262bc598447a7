//! The command on encounters: `replay` flies one under the advice of a table.
#![tactic(auto)]

mod replay_command;

pub use replay_command::replay;
