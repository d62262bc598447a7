//! Both means of a layer at all states, by what forms the means of a model.
ghost use Rattle.std.specs.Prelude.{◌≡◌, ◌≢◌, ℕ, ◌%◌, ◌<◌, length};
ghost use Rattle.acas_spec.specs.Model.{states, vertices};
ghost use Rattle.acas_spec.specs.Table.{Table};
ghost use Rattle.acas_grid.specs.Grid.{state_number};
ghost use Rattle.acas_means.specs.Columns.{columns, pairs_at, vertex_in};
ghost use Rattle.acas_means.specs.Layer.{AreValuesOf, AreWithin, pair_at};
ghost use Rattle.acas_means.specs.Means.{AreMeansOf};
ghost use Rattle.acas_means.specs.declared.layer.Side.{Side};

use crate::columns::{column_count, state_among, vertex_in_column};
use crate::layer_means::LayerMeans;
use crate::means::{ColumnMeans, VertexMeans, advisory_count};
use crate::reach::reach_of;
use acas_base::Model;
use acas_units::{GREATEST_ADVISORIES, GREATEST_VERTICES, Pair};

// Writes the means at a vertex, each at the number of the state there under its advisory.
fn put_means(model: &Model, vertex: u32, vertex_means: &VertexMeans, means: &mut [Pair])
    requires vertex { vertex < vertices model.now.grid }
    requires means { length means.old ≡ states model.now.grid }
    ensures count { length means.new ≡ states model.now.grid }
    ensures written { (a : ℕ) → a < model.now.grid.advisories
        → pair_at means.new (state_number model.now.grid a vertex) ≡ pair_at vertex_means.now a }
    ensures others { (s : ℕ) → s % vertices model.now.grid ≢ vertex
        → pair_at means.new s ≡ pair_at means.old s }
{
    let grid = model.grid();
    let width = grid.vertices();
    for advisory in 0..advisory_count(model) {
        let state = state_among(grid, width, advisory, vertex);
        means[state as usize] = vertex_means[usize::from(advisory)];
    }
}

// Writes the means at the vertices of a column.
fn put_column(model: &Model, column: u32, column_means: &ColumnMeans, means: &mut [Pair])
    requires column { column < columns model.now.grid }
    requires means { length means.old ≡ states model.now.grid }
    ensures count { length means.new ≡ states model.now.grid }
    ensures written { (i a : ℕ) → i < length model.now.grid.h → a < model.now.grid.advisories
        → pair_at means.new (state_number model.now.grid a (vertex_in model.now.grid column i))
        ≡ pair_at (pairs_at column_means.now i) a }
    ensures others { (s : ℕ) → s % vertices model.now.grid % columns model.now.grid ≢ column
        → pair_at means.new s ≡ pair_at means.old s }
{
    let grid = model.grid();
    for i in 0..grid.h.len() {
        let vertex = vertex_in_column(grid, column, i);
        put_means(model, vertex, &column_means[i as usize], means);
    }
}

/// Writes what `fill_means` does, by what forms the model's means. It gives a size that no mean exceeds, up or down, and takes no memory.
pub fn fill_means_with<M: LayerMeans>(
    model: &Model,
    layer_means: &M,
    below: &[Pair],
    means: &mut [Pair],
) -> u64
    requires fits { M.fits layer_means.now model.now }
    requires horizon { 0 < model.now.grid.horizon }
    requires below { length below.now ≡ states model.now.grid }
    requires means { length means.old ≡ states model.now.grid }
    ensures count { length means.new ≡ states model.now.grid }
    ensures means { (t : Table) (n : ℕ) → AreValuesOf model.now t n below.now
        → AreMeansOf model.now t n means.new }
    ensures size { (side : Side) → AreWithin result side means.new }
{
    let reach = reach_of(model, below);
    let none = [Pair { upper: 0, lower: 0 }; GREATEST_ADVISORIES as usize];
    let mut column_means = [none; GREATEST_VERTICES as usize];
    for column in 0..column_count(model.grid()) {
        layer_means.fill_column(model, reach, column, below, &mut column_means);
        put_column(model, column, &column_means, means);
    }
    reach.size
}
