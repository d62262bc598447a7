//! The least lower values of the choices, found once for planes with the same choices where no mean is far from 0: choice by choice, in
//! plain loops over the vertices.
ghost use Rattle.std.specs.Int.{int_min};
ghost use Rattle.std.specs.Prelude.{◌≡◌, ◌↔◌, ℕ, ◌<◌, ◌^◌, ◌+ℤ◌, ◌≤◌, length, unsigned_abs, IsTrue};
ghost use Rattle.acas_spec.specs.Model.{states, vertices};
ghost use Rattle.acas_grid.specs.Grid.{state_number};
ghost use Rattle.acas_grid.specs.States as numbers;
ghost use Rattle.acas_means.specs.Layer.{AreWithin, layer_values, value_at};
ghost use Rattle.acas_means.specs.declared.layer.Side.TheVariants.{Lower};
ghost use Rattle.acas_bounds.specs.Leasts.{AreLeasts, AreLowered, AreWithCost, HaveSameChoices};
ghost use Rattle.acas_bounds.specs.Planes.{IsPlane};

use crate::plane::{Plane, PlaneChoice};
use acas_base::Model;
use acas_units::Pair;

/// Whether two present advisories have the same choices, at the same costs and in the same order.
pub fn have_same_choices(model: &Model, one: u8, other: u8) -> bool
    requires one { one < model.now.grid.advisories }
    requires other { other < model.now.grid.advisories }
    ensures { IsTrue result ↔ HaveSameChoices model.now one other }
{
    model.choices(one) == model.choices(other)
}

/// A mean with a cost in millionths.
pub(crate) fn plus_cost(mean: i64, cost: i64) -> i64
    requires mean { unsigned_abs mean ≤ 2 ^ 62 }
    requires cost { unsigned_abs cost < 2 ^ 62 }
    ensures { result ≡ mean +ℤ cost }
{
    mean + cost
}

// The lesser of a mean with a cost in millionths and a value.
fn lesser(mean: i64, cost: i64, value: i64) -> i64
    requires mean { unsigned_abs mean ≤ 2 ^ 62 }
    requires cost { unsigned_abs cost < 2 ^ 62 }
    ensures { result ≡ int_min (mean +ℤ cost) value }
{
    plus_cost(mean, cost).min(value)
}

// Writes the lower value of a choice at each vertex, by the means there under its advisory and by its cost.
fn put_values(means: &[Pair], cost: i64, leasts: &mut [i64])
    requires means { AreWithin (2 ^ 62) Lower means.now }
    requires cost { unsigned_abs cost < 2 ^ 62 }
    requires leasts { length leasts.old ≡ length means.now }
    ensures count { length leasts.new ≡ length means.now }
    ensures values { AreWithCost means.now cost leasts.new }
{
    for vertex in 0..means.len() {
        leasts[vertex] = plus_cost(means[vertex].lower, cost);
    }
}

// Takes the lower value of a choice at each vertex where it is less than the value there.
fn lower_values(means: &[Pair], cost: i64, leasts: &mut [i64])
    requires means { AreWithin (2 ^ 62) Lower means.now }
    requires cost { unsigned_abs cost < 2 ^ 62 }
    requires leasts { length leasts.old ≡ length means.now }
    ensures count { length leasts.new ≡ length means.now }
    ensures values { AreLowered means.now cost leasts.old leasts.new }
{
    for vertex in 0..means.len() {
        leasts[vertex] = lesser(means[vertex].lower, cost, leasts[vertex]);
    }
}

// The means under the advisory of a choice, by the number of the vertex.
fn means_under<'a>(model: &Model, choice: &PlaneChoice, means: &'a [Pair]) -> &'a [Pair]
    requires advisory { choice.now.advisory < model.now.grid.advisories }
    requires first { choice.now.first ≡ state_number model.now.grid choice.now.advisory 0 }
    requires means { length means.now ≡ states model.now.grid }
    requires narrow { AreWithin (2 ^ 62) Lower means.now }
    ensures count { length result.now ≡ vertices model.now.grid }
    ensures narrow { AreWithin (2 ^ 62) Lower result.now }
    ensures values { (v : ℕ) → v < vertices model.now.grid → value_at Lower result.now v
        ≡ layer_values Lower model.now.grid means.now choice.now.advisory (numbers.vertex_at model.now.grid v) }
{
    let first = choice.first;
    &means[first..first + model.grid().vertices() as usize]
}

/// Writes the least lower value of a plane's choices at each vertex, by the means of the layer below, of which no lower one is farther
/// from 0 than 2^62.
pub fn fill_leasts(model: &Model, plane: &Plane, means: &[Pair], leasts: &mut [i64])
    requires plane { IsPlane model.now plane.now }
    requires means { length means.now ≡ states model.now.grid }
    requires narrow { AreWithin (2 ^ 62) Lower means.now }
    requires leasts { length leasts.old ≡ vertices model.now.grid }
    ensures { AreLeasts model.now means.now plane.now.present leasts.new }
{
    let mut place = plane.count - 1;
    let last = &plane.choices[place];
    put_values(means_under(model, last, means), last.cost, leasts);
    while place > 0 {
        place -= 1;
        let choice = &plane.choices[place];
        lower_values(means_under(model, choice, means), choice.cost, leasts);
    }
}
