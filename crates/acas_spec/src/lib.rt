//! The model of two aircraft as plain data, and the words in which readers state their rules.
#![tactic(auto)]

mod fault;
mod name;
mod parts;
mod place;
mod text;

pub use fault::BoundFault;
pub use name::Name;
pub use parts::{Advisory, Choice, SigmaPoint};
pub use place::{Point, Vertex};
pub use text::Text;
