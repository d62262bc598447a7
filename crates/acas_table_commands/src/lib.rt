//! The commands that make a table: `values` prints the compiled one of a model, and `compile` stores it.
#![tactic(auto)]

mod compile_command;
mod values_command;

pub use compile_command::compile;
pub use values_command::values;
