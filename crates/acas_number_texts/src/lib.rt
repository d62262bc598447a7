//! Numbers printed to a list of bytes that grows. The program prints them on lines of a fixed room, and uses none of this.
#![tactic(auto)]

mod appending;
mod fraction;
mod millionths;

pub use fraction::print_frac;
pub use millionths::print_millionths;
