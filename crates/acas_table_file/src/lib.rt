//! The file of a table that a command reads and checks before it goes on.
#![tactic(auto)]

mod accepted_file;
mod layers_file;

pub use accepted_file::read_table_file;
pub use layers_file::read_table_layers;
