//! One layer of the values of a plan, written column by column, there vertex by vertex, and at a vertex present advisory by present
//! advisory.
ghost use Rattle.std.specs.Prelude.{◌≡◌, ◌≢◌, ℕ, ◌+◌, ◌%◌, ◌<◌, ◌≤◌, ◌^◌, unsigned_abs, length};
ghost use Rattle.acas_spec.specs.Model.{states, vertices};
ghost use Rattle.acas_spec.specs.Table.{Policy};
ghost use Rattle.acas_means.specs.Columns.{columns, pairs_at};
ghost use Rattle.acas_means.specs.Layer.{AreWithin, pair_at};
ghost use Rattle.acas_means.specs.declared.layer.Side.{Side};
ghost use Rattle.acas_risk.specs.Counts.{model_counting};
ghost use Rattle.acas_risk.specs.Layers.{AreOver, IsPlanned, LeaveRoom, altitude_at, column_at, with_cost};
ghost use Rattle.acas_risk.specs.Pairs.{ArePairsOf};
ghost use Rattle.acas_risk.specs.Plans.{policy_of};
ghost use Rattle.acas_risk.specs.Steps.{IsStepOf};

use crate::counted::{Counted, SecondCosts, ending};
use crate::plan::Plan;
use acas_base::Model;
use acas_means::{
    ColumnMeans, LayerMeans, VertexMeans, advisory_count, column_count, reach_of, vertex_in_column,
};
use acas_units::Pair;

/// One second of a plan: the plan, how many seconds are to go after it, and what a second costs.
#[derive(Clone, Copy)]
pub(crate) struct Step<'a> {
    pub(crate) plan: &'a Plan<'a>,
    pub(crate) n: u32,
    pub(crate) costs: &'a SecondCosts,
}

/// Writes the layer with no second to go.
pub(crate) fn put_endings(model: &Model, counted: Counted, pairs: &mut [Pair])
    requires { length pairs.old ≡ states model.now.grid }
    ensures pairs { (policy : Policy) → ArePairsOf (model_counting counted model.now) policy 0 pairs.new }
    ensures small { (side : Side) → AreWithin (10 ^ 15) side pairs.new }
{
    let grid = model.grid();
    for state in 0..grid.states() {
        let value = ending(model, counted, state % grid.vertices());
        pairs[state as usize] = Pair {
            upper: value,
            lower: value,
        };
    }
}

// A pair with the cost of a second beside each of its values.
fn with_cost(mean: Pair, cost: i64) -> Pair
    requires upper { unsigned_abs mean.upper ≤ 2 ^ 62 }
    requires lower { unsigned_abs mean.lower ≤ 2 ^ 62 }
    requires cost { unsigned_abs cost ≤ 10 ^ 15 }
    ensures { result ≡ with_cost mean cost }
{
    Pair {
        upper: mean.upper + cost,
        lower: mean.lower + cost,
    }
}

// Writes the pairs of the states at a vertex before a second of a plan, by the means there.
fn put_vertex(model: &Model, step: &Step<'_>, vertex: u32, means: &VertexMeans, above: &mut [Pair])
    requires step { IsStepOf model.now step.now }
    requires vertex { vertex < vertices model.now.grid }
    requires means { LeaveRoom model.now.grid means.now }
    requires above { length above.old ≡ states model.now.grid }
    ensures written { (s : ℕ) → s < states model.now.grid → s % vertices model.now.grid ≡ vertex
        → IsPlanned model.now.grid step.now.costs.now (policy_of model.now step.now.plan.now) (step.now.n + 1) means.now s (pair_at above.new s) }
    ensures others { (s : ℕ) → s % vertices model.now.grid ≢ vertex
        → pair_at above.new s ≡ pair_at above.old s }
    ensures count { length above.new ≡ states model.now.grid }
{
    let vertices = model.grid().vertices();
    for present in 0..advisory_count(model) {
        let state = u32::from(present) * vertices + vertex;
        let advisory = step.plan.given(model, step.n, state);
        let cost = step.costs[usize::from(present)][usize::from(advisory)];
        above[state as usize] = with_cost(means[usize::from(advisory)], cost);
    }
}

// Writes the pairs of the states in a column.
fn put_column(model: &Model, step: &Step<'_>, column: u32, means: &ColumnMeans, above: &mut [Pair])
    requires step { IsStepOf model.now step.now }
    requires column { column < columns model.now.grid }
    requires means { (i : ℕ) → i < length model.now.grid.h → LeaveRoom model.now.grid (pairs_at means.now i) }
    requires above { length above.old ≡ states model.now.grid }
    ensures written { (s : ℕ) → s < states model.now.grid → column_at model.now.grid s ≡ column
        → IsPlanned model.now.grid step.now.costs.now (policy_of model.now step.now.plan.now) (step.now.n + 1)
        (pairs_at means.now (altitude_at model.now.grid s)) s (pair_at above.new s) }
    ensures others { (s : ℕ) → column_at model.now.grid s ≢ column
        → pair_at above.new s ≡ pair_at above.old s }
    ensures count { length above.new ≡ states model.now.grid }
{
    let grid = model.grid();
    for i in 0..grid.h.len() {
        let vertex = vertex_in_column(grid, column, i);
        put_vertex(model, step, vertex, &means[i as usize], above);
    }
}

/// Writes a layer over the one below, which a second of a plan leads to, by room for the means of a column. It takes no memory.
pub(crate) fn put_over<M: LayerMeans>(
    model: &Model,
    layer_means: &M,
    step: &Step<'_>,
    below: &[Pair],
    means: &mut ColumnMeans,
    above: &mut [Pair],
)
    requires fits { M.fits layer_means.now model.now }
    requires step { IsStepOf model.now step.now }
    requires below { length below.now ≡ states model.now.grid }
    requires small { (side : Side) → AreWithin (2 ^ 62) side below.now }
    requires above { length above.old ≡ states model.now.grid }
    ensures over { AreOver model.now step.now.costs.now (policy_of model.now step.now.plan.now) (step.now.n + 1) below.now
        (columns model.now.grid) above.new }
    ensures count { length above.new ≡ states model.now.grid }
{
    let reach = reach_of(model, below);
    for column in 0..column_count(model.grid()) {
        layer_means.fill_column(model, reach, column, below, means);
        put_column(model, step, column, means, above);
    }
}
