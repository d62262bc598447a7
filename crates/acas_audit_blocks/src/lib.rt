//! Blocks of cells that are decided at once, with the count of the decisions.
#![tactic(auto)]

mod block_area;
mod block_audit;
mod clear;
mod deciding;
mod decision_laws;
mod decisions;
mod filling;
mod moving;
mod waiting;

pub use block_audit::{BlockAudit, CellSets};
pub use clear::block_clear;
pub use decision_laws::decisions_are_one;
pub use decisions::{DecidedBlock, Decisions};
