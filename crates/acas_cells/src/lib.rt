//! Cells and blocks of them, what a table advises at a cell's corners, and the cells under each advice in order.
#![tactic(auto)]

mod advices;
mod block;
mod laws;
mod name;
mod set;

pub use advices::advices_at;
pub use block::Block;
pub use laws::{
    advices_at_corners_are_tabled, advisory_cells_are_in_order, cells_are_in_order,
    clear_cells_have_no_advisory,
};
pub use name::CellName;
pub use set::AdviceSet;
