//! A model within its limits as a value, what a table advises, and the layers of a table, as a sweep makes them or a reader finds them:
//! what all computations stand on. The text of a model is read elsewhere.
#![tactic(auto)]

mod advices;
mod layers;
mod model;
mod names;
mod numbers;
mod weights;

pub use acas_spec::{Advisory, Choice, Name, SigmaPoint, Text};
pub use advices::Advices;
pub use layers::Layers;
pub use model::Model;
pub use names::position_of;
pub use numbers::{Closing, Numbers, Pilot, Puck};
pub use weights::total_weight;
