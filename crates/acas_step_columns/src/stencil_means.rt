//! The means of a model's layers, column by column, by its stencils.
ghost use Rattle.acas_step_stencils.specs.Stencils.{AreStencilsOf};

use crate::columns::{fill_advisory, source_of};
use crate::means_over::MeansOver;
use acas_base::Model;
use acas_means::{ColumnMeans, LayerMeans, Reach, advisory_count};
use acas_step::{changes_from, own_rate_at};
use acas_step_stencils::Stencils;
use acas_units::{GREATEST_VERTICES, Pair};
use std::alloc::{AllocError, Global};

/// The stencils of a model, which form the means of its layers.
#[derive(Drop)]
pub struct StencilMeans {
    stencils: Stencils,
}

impl LayerMeans for StencilMeans {
    ghost fits = { λ means m. AreStencilsOf m means.stencils };

    fn make(alloc: Global, model: &Model) -> Result<StencilMeans, AllocError> {
        Ok(StencilMeans {
            stencils: Stencils::make(alloc, model)?,
        })
    }

    fn fill_column(
        &self,
        model: &Model,
        reach: Reach,
        column: u32,
        below: &[Pair],
        means: &mut ColumnMeans,
    ) {
        let _ = model.grid();
        let over = MeansOver {
            model,
            stencils: &self.stencils,
            below,
            reach,
        };
        let changes = changes_from(model, own_rate_at(model, column));
        let mut blend_uppers = [0u64; GREATEST_VERTICES as usize];
        let mut blend_lowers = [0u64; GREATEST_VERTICES as usize];
        let mut uppers = [0u64; GREATEST_VERTICES as usize];
        let mut lowers = [0u64; GREATEST_VERTICES as usize];
        for advisory in 0..advisory_count(model) {
            let source = source_of(
                &over,
                column,
                &changes,
                advisory,
                &mut blend_uppers,
                &mut blend_lowers,
                &mut uppers,
                &mut lowers,
            );
            fill_advisory(
                &over, column, &changes, advisory, source, &uppers, &lowers, means,
            );
        }
    }
}
