//! The grid of a model: its axes, the numbers of its vertices and states, and the cell that holds a point.
#![tactic(auto)]

mod axis;
mod grid;
mod laws;
mod states;

pub use acas_spec::{Point, Vertex};
pub use axis::{Axis, AxisFault};
pub use grid::Grid;
pub use laws::{falls_are_first, numbers_are_one_to_one, numbers_give_back_their_parts};
pub use states::{state_present, state_vertex, vertex_at};
