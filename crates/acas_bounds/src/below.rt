//! The means of the layer below an entry, as the check takes them.
ghost use Rattle.std.specs.Prelude.{◌≡◌, ◌<◌, length};
ghost use Rattle.acas_spec.specs.Model.{states, vertices};
ghost use Rattle.acas_grid.specs.States as numbers;
ghost use Rattle.acas_means.specs.Layer.{layer_values};
ghost use Rattle.acas_means.specs.declared.layer.Side.TheVariants.{Upper, Lower};
ghost use Rattle.acas_bounds.specs.Means.{HasMeans, lower_below, upper_below};

use acas_base::Model;
use acas_means::{VertexMeans, advisory_count};
use acas_units::Pair;

/// The means of the layer below: at all states in the order of their numbers, or at the vertex of the entry alone, under each advisory
/// by its number.
#[derive(Clone, Copy)]
pub(crate) enum Below<'l> {
    AtStates(&'l [Pair]),
    AtVertex(&'l VertexMeans),
}

// The means at a vertex under an advisory, among those of all states.
fn state_means(model: &Model, vertex: u32, advisory: u8, means: &[Pair]) -> Pair
    requires vertex { vertex < vertices model.now.grid }
    requires advisory { advisory < model.now.grid.advisories }
    requires means { length means.now ≡ states model.now.grid }
    ensures upper { let x = numbers.vertex_at model.now.grid vertex in
        result.upper ≡ layer_values Upper model.now.grid means.now advisory x }
    ensures lower { let x = numbers.vertex_at model.now.grid vertex in
        result.lower ≡ layer_values Lower model.now.grid means.now advisory x }
{
    means[model.grid().state_number(advisory, vertex) as usize]
}

/// The means of the layer below under an advisory at a vertex, in millionths.
pub(crate) fn means_under(model: &Model, vertex: u32, advisory: u8, below: Below<'_>) -> Pair
    requires vertex { vertex < vertices model.now.grid }
    requires advisory { advisory < model.now.grid.advisories }
    requires below { HasMeans model.now below }
    ensures upper { let x = numbers.vertex_at model.now.grid vertex in
        result.upper ≡ upper_below model.now below.entry x advisory }
    ensures lower { let x = numbers.vertex_at model.now.grid vertex in
        result.lower ≡ lower_below model.now below.entry x advisory }
{
    // There are no more advisories than a vertex has places for means.
    let _ = advisory_count(model);
    match below {
        Below::AtStates(means) => state_means(model, vertex, advisory, means),
        Below::AtVertex(means) => means[usize::from(advisory)],
    }
}
