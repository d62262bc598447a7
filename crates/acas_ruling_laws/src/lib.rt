//! What is printed of a cell or a box is one: each that is endangered has a witness by the rule, in lowest terms, and no other; so
//! each has a ruling, and no other. Each box has one verdict against an intruder that may change its rate, too. The functions do nothing,
//! and their clauses are what holds of the definitions.
#![tactic(auto)]

mod laws;

pub use laws::{meetings_are_one, rulings_are_one, witnesses_are_one};
