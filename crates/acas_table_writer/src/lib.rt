//! The writer of table files, in both formats.
#![tactic(auto)]

mod encoding;
mod pieces;
mod writer;

pub use writer::{Phase, TableWriter};
