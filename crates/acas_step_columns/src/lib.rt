//! The means of a layer, column by column, by stencils.
#![tactic(auto)]

mod column_sums;
mod columns;
mod means_over;
mod stencil_means;
mod wide_means;

pub use stencil_means::StencilMeans;
