//! One second of flight over the grid of a model: where it leads, the corners of the cell that it leads to, and the means there of the
//! values of the layer below.
#![tactic(auto)]

mod cell;
mod cell_column;
mod led_to;
mod second;
mod sharing;
mod values;
mod weighted;

pub use cell::{Cell, Corner, CornerSet, Ends, cell_near, corner_set, corners, product};
pub use cell_column::column_of_cell;
pub use led_to::LedTo;
pub use second::{led_past, moved, moved_from, own_rate_at};
pub use sharing::{Changes, changes_from, first_twin};
pub use values::{mean_by, sigma_count, total_weight};
