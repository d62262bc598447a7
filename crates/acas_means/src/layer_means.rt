//! What forms the means of a layer, column by column.
ghost use Rattle.std.specs.Prelude.{◌≡◌, ℕ, ◌<◌, length, IfOk};
ghost use Rattle.acas_spec.specs.Model.{ModelData, states};
ghost use Rattle.acas_means.specs.Columns.{AreAllWithin, AreColumnMeans, columns};
ghost use Rattle.acas_means.specs.Layer.{AreWithin};
ghost use Rattle.acas_means.specs.Reach.{IsReach};
ghost use Rattle.acas_means.specs.declared.layer.Side.{Side};

use crate::means::ColumnMeans;
use crate::reach::Reach;
use acas_base::Model;
use acas_units::Pair;
use std::alloc::{AllocError, Global};

/// What is made of a model once, and then forms the means of each of its layers.
pub trait LayerMeans: Sized + Drop {
    /// It was made of a model.
    ghost fits: { Self → ModelData → Type 0 };

    /// Makes it of a model. It fails only for want of memory.
    fn make(alloc: Global, model: &Model) -> Result<Self, AllocError>
        ensures { IfOk result (λ made. fits made model.now) };

    /// Writes both means of a layer at the vertices of a column, under each advisory of the model by its number, by the layer's reach.
    /// They are those of `means_at`. It takes no memory.
    fn fill_column(
        &self,
        model: &Model,
        reach: Reach,
        column: u32,
        below: &[Pair],
        means: &mut ColumnMeans,
    )
        requires fits { fits self.now model.now }
        requires horizon { 0 < model.now.grid.horizon }
        requires reach { IsReach model.now.grid below.now reach }
        requires column { column < columns model.now.grid }
        requires below { length below.now ≡ states model.now.grid }
        ensures means { AreColumnMeans model.now below.now column means.new }

        // No mean is larger than the largest value.
        ensures bounded { (most : ℕ) (side : Side) → AreWithin most side below.now
            → AreAllWithin most side means.old → AreAllWithin most side means.new };
}
