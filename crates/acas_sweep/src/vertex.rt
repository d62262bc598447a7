//! The best entries at one vertex over the layer below, by what forms the means there.
ghost use Rattle.std.specs.Prelude.{◌≡◌, ℕ, ◌+◌, ◌<◌, ◌^◌};
ghost use Rattle.acas_spec.specs.Model.{ModelData};
ghost use Rattle.acas_grid.specs.States.{vertex_at};
ghost use Rattle.acas_sweep.specs.Backups.{IsVertexOver};
ghost use Rattle.acas_sweep.specs.Best.{AreVertexEntries};
ghost use Rattle.acas_means.specs.Choices.{choice_count};
ghost use Rattle.acas_means.specs.Layer.{AreWithin};
ghost use Rattle.acas_means.specs.Means.{AreVertexMeans};
ghost use Rattle.acas_means.specs.declared.layer.Side.{Side};

use crate::backups::Backups;
use crate::entries::{VertexEntries, fill_best};
use acas_base::Model;
use acas_means::VertexMeans;
use acas_units::{Entry, GREATEST_ADVISORIES, Pair};

/// What forms the means of a layer at one vertex.
pub trait VertexMeansSource {
    /// It forms the means of a model.
    ghost serves: { Self → ModelData → Type 0 };

    /// Both means of the layer below at a vertex, under each advisory of the model by its number.
    fn means_at(&self, model: &Model, vertex: u32, below: &[Pair]) -> VertexMeans
        requires serves { serves self.now model.now }
        requires over { IsVertexOver model.now vertex below.now }
        ensures means { AreVertexMeans model.now below.now (vertex_at model.now.grid vertex) result }

        // No mean is larger than the largest value.
        ensures bounded { (most : ℕ) (side : Side) → AreWithin most side below.now → AreWithin most side result };
}

/// The best entries at a vertex over the layer below, under each present advisory by its number. It counts a backup for each choice.
pub fn entries_over<S: VertexMeansSource>(
    model: &Model,
    source: &S,
    vertex: u32,
    below: &[Pair],
    count: &mut Backups,
) -> VertexEntries
    requires serves { S.serves source.now model.now }
    requires over { IsVertexOver model.now vertex below.now }
    requires small { (side : Side) → AreWithin (2 ^ 62) side below.now }
    requires count { count.old + choice_count model.now < 2 ^ 64 }
    ensures entries { AreVertexEntries model.now below.now (vertex_at model.now.grid vertex) result }
    ensures count { count.new ≡ count.old + choice_count model.now }
{
    let _ = model.grid();
    let means = source.means_at(model, vertex, below);
    let none = Entry {
        pair: Pair { upper: 0, lower: 0 },
        advice: 0,
    };
    let mut entries = [none; GREATEST_ADVISORIES as usize];
    fill_best(model, &means, &mut entries, count);
    entries
}
