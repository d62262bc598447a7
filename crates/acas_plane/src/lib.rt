//! A block of memory for two planes of pairs, of which one is written while the other is read.
#![tactic(auto)]

mod block;
mod places;
mod turned;

pub use block::PlaneBlock;
pub use turned::Turned;
