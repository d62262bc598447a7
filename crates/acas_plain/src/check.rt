//! The check of an entry by the values of the layer below it, or by its means, for the state of a number.
ghost use Rattle.std.specs.Prelude.{◌≡◌, ◌%◌, ◌<◌, OnOk, length};
ghost use Rattle.acas_spec.specs.Limits.{IsModel};
ghost use Rattle.acas_spec.specs.Model.{states, vertices};
ghost use Rattle.acas_spec.specs.Table.{Table};
ghost use Rattle.acas_grid.specs.States as numbers;
ghost use Rattle.acas_means.specs.Entries.{IsStateEntry};
ghost use Rattle.acas_means.specs.Layer.{AreValuesOf};
ghost use Rattle.acas_means.specs.Means.{AreMeansOf, AreVertexMeans};
ghost use Rattle.acas_bounds.specs.Checks.{AnswersFault, OfBelow, state_fault};
ghost use Rattle.acas_plain.specs.Checks.{MayAdvise};

use crate::means::means_at;
use acas_base::Model;
use acas_bounds::{BoundFault, check_at, check_at_vertex};
use acas_means::VertexMeans;
use acas_units::{Entry, GREATEST_ADVISORIES, Pair};

// The present advisory of a state and the number of its vertex.
fn parts(model: &Model, state: u32) -> (u8, u32)
    requires { state < states model.now.grid }
    ensures valid { IsModel model.now }
    ensures present { result.0 ≡ numbers.state_present model.now.grid state }
    ensures known { result.0 < model.now.grid.advisories }
    ensures vertex { result.1 ≡ state % vertices model.now.grid }
    ensures inside { result.1 < vertices model.now.grid }
{
    let vertices = model.grid().vertices();
    ((state / vertices) as u8, state % vertices)
}

// The means of the layer below at a vertex. With no second to go none is looked at.
fn means_below(model: &Model, n: u32, vertex: u32, below: &[Pair]) -> VertexMeans
    requires vertex { vertex < vertices model.now.grid }
    requires below { 0 < n → length below.now ≡ states model.now.grid }
    ensures { 0 < n → AreVertexMeans model.now below.now (numbers.vertex_at model.now.grid vertex) result }
{
    if n == 0 {
        return [Pair { upper: 0, lower: 0 }; GREATEST_ADVISORIES as usize];
    }
    means_at(model, vertex, below)
}

/// Whether the entry of a state with n seconds to go is sound by the layer below, and the first part that it fails if not. The
/// pairs of the layer below stand in the order of the states' numbers; with no second to go none is looked at.
pub fn check_entry(
    model: &Model,
    n: u32,
    state: u32,
    entry: &Entry,
    below: &[Pair],
) -> Result<(), BoundFault>
    requires state { state < states model.now.grid }
    requires below { 0 < n → length below.now ≡ states model.now.grid }

    // Whatever table the entry and the values below it are of, its fault there is reported.
    ensures value { (t : Table) → IsStateEntry model.now t n state entry.now
        → OfBelow (λ k. AreValuesOf model.now t k below.now) n
        → AnswersFault result (state_fault model.now t n state) }
    ensures allowed { OnOk result (MayAdvise model.now n state entry.now.advice) }
{
    let (present, vertex) = parts(model, state);
    let means = means_below(model, n, vertex, below);
    check_at_vertex(model, n, present, vertex, entry, &means)
}

/// The same, by the means of the layer below, as `fill_means` writes them.
pub fn check_by_means(
    model: &Model,
    n: u32,
    state: u32,
    entry: &Entry,
    means: &[Pair],
) -> Result<(), BoundFault>
    requires state { state < states model.now.grid }
    requires means { 0 < n → length means.now ≡ states model.now.grid }

    // Whatever table the entry and the means below it are of, its fault there is reported.
    ensures value { (t : Table) → IsStateEntry model.now t n state entry.now
        → OfBelow (λ k. AreMeansOf model.now t k means.now) n
        → AnswersFault result (state_fault model.now t n state) }
    ensures allowed { OnOk result (MayAdvise model.now n state entry.now.advice) }
{
    let (present, vertex) = parts(model, state);
    check_at(model, n, present, vertex, entry, means)
}
