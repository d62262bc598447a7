//! Stencils: where each column of vertices leads under each advisory and sigma point, for all layers at once. They stand on lengths in
//! units that divide the gaps of a grid's axes: heights of the altitudes above the first, and climbs in gaps.
#![tactic(auto)]

mod column_stencils;
mod heights;
mod stencil_corners;
mod stencils;
mod units;
mod vertex_cells;

pub use stencils::{Rise, StencilKey, Stencils};
