//! How likely contact is under a table's policy and without any advice, and what that policy costs, with bounds: the values of a fixed
//! policy by the same recursion, layer by layer, as those of a table.
#![tactic(auto)]

mod chances;
mod counted;
mod layer;
mod plan;
mod risk_lines;
mod risk_report;
mod risk_values;
mod valuation;

pub use chances::{chance, policy_cost};
pub use plan::Plan;
pub use risk_report::write_risk;
