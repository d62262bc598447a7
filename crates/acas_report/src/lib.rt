//! Where rulings come from, verdicts one by one or blocks of cells that are decided first, and the reports over them.
#![tactic(auto)]

mod reports;
mod sources;

pub use reports::{write_blocks, write_regions, write_report};
pub use sources::{ByBlocks, OneByOne};
