//! The commands that rule on the cells of a table: `audit`, on each advisory cell, and `safeable`, on each clear one.
#![tactic(auto)]

mod audit_command;
mod safeable_command;

pub use acas_report_lines::Which;
pub use audit_command::audit;
pub use safeable_command::safeable;
