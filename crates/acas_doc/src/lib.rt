//! The TOML document of some bytes, and the typed keys of its tables: the value at a key, or what is wrong with it and where.
//!
//! Each getter takes the path of the table or list that it is given, and prints the path of the key or item only where
//! something is wrong with it. So a getter whose value passes takes no memory, but for `whole_items`, which makes a list.
//!
//! It has also what the readers of the texts beside a model share: the fault that such a text has, its document and its version.
#![tactic(auto)]

mod document;
mod fault;
mod getters;
mod input;
mod input_fault;
mod items;
mod known;
mod path;
mod values;

pub use document::document_in;
pub use fault::{DocError, DocFault, DocKind};
pub use getters::{list, table, text, whole};
pub use input::{INPUT_VERSION, document_of, version_of};
pub use input_fault::InputFault;
pub use items::{item, table_item, text_item, whole_items};
pub use known::{least_unknown_is_named, only_keys};
pub use path::{fault_at, path_of_item, path_of_key};
