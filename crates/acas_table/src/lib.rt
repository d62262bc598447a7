//! The reader of table files, in both formats.
#![tactic(auto)]

mod body;
mod decoding;
mod header;
mod place;
mod reader;
mod source;

pub use acas_table_text::{Format, TableFault, TableRefusal, TableShape};
pub use reader::TableReader;
