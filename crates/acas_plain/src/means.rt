//! The means of a layer at a vertex under an advisory, each by a search of its cells. They do not depend on the present advisory, so
//! each is formed once and serves every state that may choose the advisory there.
ghost use Rattle.std.specs.Prelude.{◌≡◌, ℕ, ◌<◌, ◌≤◌, length, unsigned_abs};
ghost use Rattle.acas_spec.specs.Model.{states, vertices};
ghost use Rattle.acas_spec.specs.Table.{Table};
ghost use Rattle.acas_grid.specs.States as numbers;
ghost use Rattle.acas_means.specs.Layer.{AreValuesOf, AreWithin, value_of};
ghost use Rattle.acas_means.specs.Means.{AreMeansAt, AreMeansOf, AreVertexMeans};
ghost use Rattle.acas_means.specs.Values.{layer_mean};
ghost use Rattle.acas_means.specs.declared.layer.Side.{Side};

use crate::cell_search::CellSearch;
use acas_base::Model;
use acas_frac::{Down, Rounding, Up};
use acas_grid::state_present;
use acas_means::{Side, VertexMeans, advisory_count};
use acas_step::mean_by;
use acas_units::{GREATEST_ADVISORIES, Pair};

/// The mean of a layer's values over the points to which the sigma points lead from a vertex within a second under an advisory,
/// in millionths, rounded at each point and once more at the end. It is the same for each present advisory.
pub fn mean<R: Rounding>(
    model: &Model,
    vertex: u32,
    advisory: u8,
    side: Side,
    below: &[Pair],
) -> i64
    requires vertex { vertex < vertices model.now.grid }
    requires advisory { advisory < model.now.grid.advisories }
    requires below { length below.now ≡ states model.now.grid }
    ensures value { result ≡ layer_mean R.round model.now side below.now vertex advisory }

    // No mean is larger than the largest value.
    ensures bounded { (most : ℕ) → AreWithin most side below.now → unsigned_abs result ≤ most }
{
    mean_by::<R, CellSearch>(model, &CellSearch, vertex, advisory, side, below)
}

// Both means at a vertex under an advisory.
fn mean_pair(model: &Model, vertex: u32, advisory: u8, below: &[Pair]) -> Pair
    requires vertex { vertex < vertices model.now.grid }
    requires advisory { advisory < model.now.grid.advisories }
    requires below { length below.now ≡ states model.now.grid }
    ensures means { AreMeansAt model.now below.now (numbers.vertex_at model.now.grid vertex) advisory result }
    ensures bounded { (most : ℕ) (side : Side) → AreWithin most side below.now
        → unsigned_abs (value_of side result) ≤ most }
{
    Pair {
        upper: mean::<Up>(model, vertex, advisory, Side::Upper, below),
        lower: mean::<Down>(model, vertex, advisory, Side::Lower, below),
    }
}

/// Both means of a layer at a vertex, under each advisory of the model by its number.
pub fn means_at(model: &Model, vertex: u32, below: &[Pair]) -> VertexMeans
    requires vertex { vertex < vertices model.now.grid }
    requires below { length below.now ≡ states model.now.grid }
    ensures means { AreVertexMeans model.now below.now (numbers.vertex_at model.now.grid vertex) result }

    // No mean is larger than the largest value.
    ensures bounded { (most : ℕ) (side : Side) → AreWithin most side below.now → AreWithin most side result }
{
    let mut means = [Pair { upper: 0, lower: 0 }; GREATEST_ADVISORIES as usize];
    for advisory in 0..advisory_count(model) {
        means[usize::from(advisory)] = mean_pair(model, vertex, advisory, below);
    }
    means
}

/// Writes both means of a layer at each vertex under each advisory, in the order of the states' numbers: for a chosen advisory in
/// the place of a present one. It takes no memory.
pub fn fill_means(model: &Model, below: &[Pair], means: &mut [Pair])
    requires below { length below.now ≡ states model.now.grid }
    requires means { length means.old ≡ states model.now.grid }
    ensures count { length means.new ≡ states model.now.grid }
    ensures means { (t : Table) (n : ℕ) → AreValuesOf model.now t n below.now
        → AreMeansOf model.now t n means.new }
{
    let grid = model.grid();
    for state in 0..grid.states() {
        let advisory = state_present(grid, state);
        means[state as usize] = mean_pair(model, state % grid.vertices(), advisory, below);
    }
}
