//! Exact fractions, quotients rounded to whole numbers, and exact quotients by a divisor that is known beforehand. The proofs have
//! the algebra of whole numbers that the crates above cite.
#![tactic(auto)]

mod divisor;
mod frac;
mod laws;
mod products;
mod rounding;

pub use divisor::Divisor;
pub use frac::Frac;
pub use laws::{lowest_terms_are_one, quotients_are_rounded};
pub use products::gcd;
pub use rounding::{Down, Rounding, Up};
