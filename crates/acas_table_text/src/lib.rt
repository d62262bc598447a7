//! What the file of a table is: its shape, its two formats, its fields and their faults, and its text.
#![tactic(auto)]

mod fault;
mod field;
mod format;
mod refusal;
mod shape;

pub use fault::TableFault;
pub use field::Field;
pub use format::Format;
pub use refusal::TableRefusal;
pub use shape::TableShape;
