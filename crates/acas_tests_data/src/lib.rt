//! What the crates of tests share: small models, and rows of text, since a row of text costs no proof.
#![tactic(auto)]

mod models;
mod rows;

pub use models::{model_of, model_text};
pub use rows::{changed, filled, numbers};
