//! The text of a model, and the model that it says. It has also what the readers of the texts beside a model share over it: the advisory
//! that such a text names, and lemmas of what its keys hold and of the faults that its rules give.
//!
//! A model is a TOML document. Its rules are looked at in a fixed order, and the first that fails is the fault.
#![tactic(auto)]

mod advisories;
mod axes;
mod choices;
mod document;
mod fault;
mod laws;
mod named;
mod noise;
mod numbers;
mod whole;

pub use acas_base::{Advices, Model};
pub use acas_doc::{DocFault, DocKind};
pub use acas_spec::{Advisory, Choice, Name, SigmaPoint, Text};
pub use fault::{AxisName, ModelFault, NamePlace};
pub use laws::texts_say_their_models;
pub use named::advisory_named;
pub use numbers::DELAY_VERSION;
pub use whole::read_model;
