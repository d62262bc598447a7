//! The acceptance of a table: its bytes have the form of a table of a model, and each of its entries is sound. Whoever
//! made the table, its values then bound the expected cost from both sides.
#![tactic(auto)]

mod check;
mod keeping;
mod leasts;
mod refusal;
mod whole;

pub use acas_table::TableRefusal;
pub use refusal::AcceptFault;
pub use whole::{accept, accept_layers};
