//! The best entries at a vertex over the layer below, by the means of one search for each advisory.
ghost use Rattle.std.specs.Prelude.{◌≡◌, ◌+◌, ◌<◌, ◌^◌, length};
ghost use Rattle.acas_spec.specs.Model.{states, vertices};
ghost use Rattle.acas_grid.specs.States.{vertex_at};
ghost use Rattle.acas_sweep.specs.Best.{AreVertexEntries};
ghost use Rattle.acas_means.specs.Choices.{choice_count};
ghost use Rattle.acas_means.specs.Layer.{AreWithin};
ghost use Rattle.acas_means.specs.declared.layer.Side.{Side};

use crate::means::means_at;
use acas_base::Model;
use acas_means::VertexMeans;
use acas_sweep::{Backups, VertexEntries, VertexMeansSource, entries_over};
use acas_units::Pair;

/// The means at a vertex, by one search for each advisory.
#[derive(Drop)]
struct SearchedMeans;

impl VertexMeansSource for SearchedMeans {
    ghost serves = { λ it m. Unit {0} };

    fn means_at(&self, model: &Model, vertex: u32, below: &[Pair]) -> VertexMeans {
        means_at(model, vertex, below)
    }
}

/// The best entries at a vertex over the layer below, under each present advisory by its number. It counts a backup for each choice.
pub fn entries_at(model: &Model, vertex: u32, below: &[Pair], count: &mut Backups) -> VertexEntries
    requires vertex { vertex < vertices model.now.grid }
    requires below { length below.now ≡ states model.now.grid }
    requires small { (side : Side) → AreWithin (2 ^ 62) side below.now }
    requires count { count.old + choice_count model.now < 2 ^ 64 }
    ensures entries { AreVertexEntries model.now below.now (vertex_at model.now.grid vertex) result }
    ensures count { count.new ≡ count.old + choice_count model.now }
{
    entries_over(model, &SearchedMeans, vertex, below, count)
}
