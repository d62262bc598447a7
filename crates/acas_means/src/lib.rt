//! A layer of a table as lists over the states: its values and their means, the choices with what they cost, and the contract of what
//! forms the means of a layer.
#![tactic(auto)]

mod choices;
mod columns;
mod ending;
mod laws;
mod layer;
mod layer_means;
mod likes;
mod means;
mod reach;
mod state_means;

pub use choices::{choice_among, choice_at, choice_count, with_cost};
pub use columns::{column_count, state_among, vertex_in_column};
pub use ending::terminal;
pub use laws::choices_have_their_values;
pub use layer::{Side, first_state};
pub use layer_means::LayerMeans;
pub use likes::Likes;
pub use means::{ColumnMeans, VertexMeans, advisory_count, blank_means};
pub use reach::{Reach, reach_of};
pub use state_means::fill_means_with;
