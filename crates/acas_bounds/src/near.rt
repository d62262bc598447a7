//! Whether an entry is sound, in 64 bits: where no mean is far from 0, and the least lower values of the choices are found.
ghost use Rattle.std.specs.Prelude.{◌≡◌, ◌↔◌, ◌<◌, ◌≤◌, ◌^◌, ◌≤ℤ◌, ℕ, pos, get_or, length, None, IsTrue, unsigned_abs};
ghost use Rattle.acas_spec.specs.Model.{states, vertices};
ghost use Rattle.acas_spec.specs.Table.{Table};
ghost use Rattle.acas_grid.specs.Grid.{state_number};
ghost use Rattle.acas_grid.specs.States as numbers;
ghost use Rattle.acas_process.specs.Cost.{MayChoose};
ghost use Rattle.acas_means.specs.Choices.{value_by_mean};
ghost use Rattle.acas_means.specs.Entries.{IsEntryOf};
ghost use Rattle.acas_means.specs.Layer.{AreWithin, layer_values};
ghost use Rattle.acas_means.specs.Means.{AreMeansOf};
ghost use Rattle.acas_means.specs.declared.layer.Side.TheVariants.{Upper};
ghost use Rattle.acas_bounds.specs.Checks.{OfBelow};
ghost use Rattle.acas_bounds.specs.Leasts.{AreLeasts};
ghost use Rattle.acas_bounds.specs.Means.{IsUpperMet, formed_upper};
ghost use Rattle.acas_bounds.specs.Planes.{IsPlane, IsPlaneChoice};
ghost use Rattle.acas_bounds.specs.Sound.{bound_fault};

use crate::leasts::plus_cost;
use crate::plane::{Plane, PlaneChoice};
use acas_base::Model;
use acas_units::{Entry, Pair};

// The upper mean that was formed for the advisory of a choice at a vertex.
fn upper_mean(model: &Model, choice: &PlaneChoice, vertex: u32, means: &[Pair]) -> i64
    requires advisory { choice.now.advisory < model.now.grid.advisories }
    requires first { choice.now.first ≡ state_number model.now.grid choice.now.advisory 0 }
    requires vertex { vertex < vertices model.now.grid }
    requires means { length means.now ≡ states model.now.grid }
    requires narrow { AreWithin (2 ^ 62) Upper means.now }
    ensures value { let x = numbers.vertex_at model.now.grid vertex in
        result ≡ layer_values Upper model.now.grid means.now choice.now.advisory x }
    ensures narrow { unsigned_abs result ≤ 2 ^ 62 }
{
    let _ = model.grid();
    means[choice.first + vertex as usize].upper
}

// Whether an upper value is at least that of a choice.
fn is_above(
    model: &Model,
    present: u8,
    choice: &PlaneChoice,
    vertex: u32,
    upper: i64,
    means: &[Pair],
) -> bool
    requires choice { IsPlaneChoice model.now present choice.now }
    requires vertex { vertex < vertices model.now.grid }
    requires means { length means.now ≡ states model.now.grid }
    requires narrow { AreWithin (2 ^ 62) Upper means.now }
    ensures { let mean = formed_upper model.now means.now (numbers.vertex_at model.now.grid vertex) in
        IsTrue result ↔ (value_by_mean model.now present mean choice.now.advisory ≤ℤ upper) }
{
    plus_cost(upper_mean(model, choice, vertex, means), choice.cost) <= upper
}

// Whether the advice of an entry is allowed, and its upper value at least that of the advice.
fn is_upper_met(model: &Model, plane: &Plane, vertex: u32, entry: &Entry, means: &[Pair]) -> bool
    requires plane { IsPlane model.now plane.now }
    requires vertex { vertex < vertices model.now.grid }
    requires means { length means.now ≡ states model.now.grid }
    requires narrow { AreWithin (2 ^ 62) Upper means.now }
    ensures { let upper = formed_upper model.now means.now (numbers.vertex_at model.now.grid vertex) in
        IsTrue result ↔ IsUpperMet model.now upper plane.now.present entry.now }
{
    match plane.place_of(entry.advice) {
        Some(place) => {
            let choice = &plane.choices[place];
            is_above(
                model,
                plane.present,
                choice,
                vertex,
                entry.pair.upper,
                means,
            )
        }
        None => false,
    }
}

// Whether the lower value of an entry is at most the least lower value of the choices at a vertex.
fn is_lower_met(vertex: u32, entry: &Entry, leasts: &[i64]) -> bool
    requires { vertex < length leasts.now }
    ensures { IsTrue result ↔ (entry.now.pair.lower ≤ℤ get_or leasts.now vertex (pos 0)) }
{
    entry.pair.lower <= leasts[vertex as usize]
}

/// Whether the entry at a vertex under the present advisory of a plane, with a second to go, is sound. It is quickly answered: the means
/// of the layer below are no farther from 0 than 2^62, and the least lower values of the choices are given, as `fill_leasts` writes them
/// for the plane or for one with the same choices.
pub fn is_sound_at(
    model: &Model,
    plane: &Plane,
    vertex: u32,
    entry: &Entry,
    means: &[Pair],
    leasts: &[i64],
) -> bool
    requires plane { IsPlane model.now plane.now }
    requires vertex { vertex < vertices model.now.grid }
    requires means { length means.now ≡ states model.now.grid }
    requires narrow { AreWithin (2 ^ 62) Upper means.now }
    requires leasts { AreLeasts model.now means.now plane.now.present leasts.now }

    // Whatever table the entry and the means below it are of, it has no fault there, or one.
    ensures value { let x = numbers.vertex_at model.now.grid vertex in
        (t : Table) (n : ℕ) → 0 < n → IsEntryOf t n plane.now.present x entry.now
        → OfBelow (λ k. AreMeansOf model.now t k means.now) n
        → (IsTrue result ↔ (bound_fault model.now t n plane.now.present x ≡ None)) }
    ensures allowed { IsTrue result → MayChoose model.now plane.now.present entry.now.advice }
{
    is_upper_met(model, plane, vertex, entry, means) && is_lower_met(vertex, entry, leasts)
}
