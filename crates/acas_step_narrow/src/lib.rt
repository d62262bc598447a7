//! Values of a layer raised above 0 and blended in 64 bits, the means of such sums, and sums over the corners of a cell in 128.
#![tactic(auto)]

mod column_blends;
mod narrow_means;
mod raised;
mod wide_sums;

pub use column_blends::{clear_sums, fill_blends};
pub use narrow_means::{
    lowered, means_of_sums, narrow_weight, quotient_down, quotient_up, with_point,
};
pub use raised::{Raised, RateWeights, SideColumn, along_h, along_rates, rate_weights};
pub use wide_sums::{WIDE_SIZE, WideSums, corner_sums, down_wide, up_wide};
