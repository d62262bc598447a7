//! The commands on stored tables: `check` accepts one or says why not, and `migrate` stores an accepted one again in version 2.
#![tactic(auto)]

mod check_command;
mod migrate_command;

pub use check_command::check;
pub use migrate_command::migrate;
