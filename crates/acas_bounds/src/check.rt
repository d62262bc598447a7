//! The check of one entry.
ghost use Rattle.std.specs.Prelude.{◌≡◌, ◌<◌, OnOk, length};
ghost use Rattle.acas_spec.specs.Model.{states, vertices};
ghost use Rattle.acas_spec.specs.Table.{Table};
ghost use Rattle.acas_grid.specs.States as numbers;
ghost use Rattle.acas_process.specs.Cost.{MayChoose};
ghost use Rattle.acas_means.specs.Entries.{IsEntryOf};
ghost use Rattle.acas_means.specs.Layer.{value_at};
ghost use Rattle.acas_means.specs.Means.{AreMeansOf};
ghost use Rattle.acas_means.specs.declared.layer.Side.TheVariants.{Upper, Lower};
ghost use Rattle.acas_bounds.specs.Checks.{OfBelow, AnswersFault};
ghost use Rattle.acas_bounds.specs.Means.{AreOfLayer, HasMeans, answer_of, ending_fault, fault_by_means, lower_below, upper_below};
ghost use Rattle.acas_bounds.specs.Sound.{bound_fault, values_fault};

use crate::below::{Below, means_under};
use crate::choices::{cost_if_allowed, least_lower};
use acas_base::Model;
use acas_means::{VertexMeans, terminal, with_cost};
use acas_spec::BoundFault;
use acas_units::{Entry, Pair};

// What the values of an entry are held against: what the upper is to be at least, and the lower at most.
#[derive(Clone, Copy)]
struct Limits {
    needed: i128,
    allowed: i128,
}

// That both values of an entry are within their limits. The upper value is looked at first.
fn check_values(pair: Pair, limits: Limits) -> Result<(), BoundFault>
    ensures { result ≡ answer_of (values_fault pair.upper limits.needed pair.lower limits.allowed) }
{
    if i128::from(pair.upper) < limits.needed {
        return Err(BoundFault::UpperTooLow {
            stands: pair.upper,
            needed: limits.needed,
        });
    }
    if limits.allowed < i128::from(pair.lower) {
        return Err(BoundFault::LowerTooHigh {
            stands: pair.lower,
            allowed: limits.allowed,
        });
    }
    Ok(())
}

// The check of the two values of an entry with no second to go.
fn check_ending(model: &Model, vertex: u32, pair: Pair) -> Result<(), BoundFault>
    requires { vertex < vertices model.now.grid }
    ensures { result ≡ answer_of (ending_fault model.now (numbers.vertex_at model.now.grid vertex) pair) }
{
    let cost = 1_000_000 * i128::from(terminal(model, vertex));
    let limits = Limits {
        needed: cost,
        allowed: cost,
    };
    check_values(pair, limits)
}

// The check of an entry with n seconds to go.
#[inline(never)]
fn check(
    model: &Model,
    n: u32,
    present: u8,
    vertex: u32,
    entry: &Entry,
    below: Below<'_>,
) -> Result<(), BoundFault>
    requires present { present < model.now.grid.advisories }
    requires vertex { vertex < vertices model.now.grid }
    requires below { 0 < n → HasMeans model.now below }
    ensures { let x = numbers.vertex_at model.now.grid vertex in
        let upper = upper_below model.now below.entry x in
        let lower = lower_below model.now below.entry x in
        result ≡ answer_of (fault_by_means model.now upper lower n present x entry.now) }
{
    if n == 0 {
        return check_ending(model, vertex, entry.pair);
    }
    match cost_if_allowed(model, present, entry.advice) {
        Some(cost) => {
            let means = means_under(model, vertex, entry.advice, below);
            let limits = Limits {
                needed: with_cost(means.upper, cost),
                allowed: least_lower(model, present, vertex, below),
            };
            check_values(entry.pair, limits)
        }
        None => Err(BoundFault::AdviceNotAllowed),
    }
}

/// Whether the entry of a state with n seconds to go is sound by the layer below, and the first part that it fails if not: of the state at
/// a vertex where an advisory is present, by the means of the layer below in the order of the states' numbers. With no second to go none
/// is looked at.
pub fn check_at(
    model: &Model,
    n: u32,
    present: u8,
    vertex: u32,
    entry: &Entry,
    means: &[Pair],
) -> Result<(), BoundFault>
    requires present { present < model.now.grid.advisories }
    requires vertex { vertex < vertices model.now.grid }
    requires means { 0 < n → length means.now ≡ states model.now.grid }

    // Whatever table the entry and the means below it are of, its fault there is reported.
    ensures value { let x = numbers.vertex_at model.now.grid vertex in
        (t : Table) → IsEntryOf t n present x entry.now
        → OfBelow (λ k. AreMeansOf model.now t k means.now) n
        → AnswersFault result (bound_fault model.now t n present x) }
    ensures allowed { OnOk result (0 < n → MayChoose model.now present entry.now.advice) }
{
    let _ = model.grid();
    check(model, n, present, vertex, entry, Below::AtStates(means))
}

/// The same, by the means at the vertex alone, under each advisory by its number.
pub fn check_at_vertex(
    model: &Model,
    n: u32,
    present: u8,
    vertex: u32,
    entry: &Entry,
    means: &VertexMeans,
) -> Result<(), BoundFault>
    requires present { present < model.now.grid.advisories }
    requires vertex { vertex < vertices model.now.grid }

    // Whatever table the entry and the means are of, its fault there is reported.
    ensures value { let x = numbers.vertex_at model.now.grid vertex in
        (t : Table) → IsEntryOf t n present x entry.now
        → OfBelow (λ k. AreOfLayer model.now t k x (value_at Upper means.now) (value_at Lower means.now)) n
        → AnswersFault result (bound_fault model.now t n present x) }
    ensures allowed { OnOk result (0 < n → MayChoose model.now present entry.now.advice) }
{
    let _ = model.grid();
    check(model, n, present, vertex, entry, Below::AtVertex(means))
}
