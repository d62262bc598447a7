//! The choices under a present advisory, by their costs and by their lower values.
ghost use Rattle.std.specs.Prelude.{◌≡◌, ◌<◌, length, IfSome};
ghost use Rattle.acas_spec.specs.Axis.{IsBetween};
ghost use Rattle.acas_spec.specs.Model.{choices_at, vertices};
ghost use Rattle.acas_grid.specs.States as numbers;
ghost use Rattle.acas_process.specs.Compiled.{least};
ghost use Rattle.acas_means.specs.Choices.{listed_choice, value_by_mean};
ghost use Rattle.acas_bounds.specs.Means.{HasMeans, allowed_cost, lower_below};

use crate::below::{Below, means_under};
use acas_base::Model;
use acas_means::{choice_among, choice_at, choice_count, with_cost};
use acas_units::{GREATEST_COST, LEAST_COST};

// The cost of an advisory in units, or None where it is at no place of the list of choices.
#[inline(never)]
fn scanned_cost(model: &Model, present: u8, advisory: u8) -> Option<i64>
    requires { present < model.now.grid.advisories }
    ensures value { result ≡ allowed_cost model.now present advisory }
    ensures inside { IfSome result (λ cost. advisory < model.now.grid.advisories) }
    ensures limits { IfSome result (λ cost. IsBetween LEAST_COST GREATEST_COST cost) }
{
    for place in 0..choice_count(model, present) {
        let choice = choice_at(model, present, place);
        if choice.advisory == advisory {
            return Some(choice.cost);
        }
    }
    None
}

/// The cost of an advisory in units, or None where it is not in the list of choices. It looks first at the place of the advisory's own
/// number, where it stands in a list of all advisories in order.
pub(crate) fn cost_if_allowed(model: &Model, present: u8, advisory: u8) -> Option<i64>
    requires { present < model.now.grid.advisories }
    ensures value { result ≡ allowed_cost model.now present advisory }
    ensures inside { IfSome result (λ cost. advisory < model.now.grid.advisories) }
    ensures limits { IfSome result (λ cost. IsBetween LEAST_COST GREATEST_COST cost) }
{
    let choices = model.choices(present);
    let own = usize::from(advisory);
    if own < choices.len() {
        let likely = choice_among(model, present, choices, own);
        if likely.advisory == advisory {
            return Some(likely.cost);
        }
    }
    scanned_cost(model, present, advisory)
}

// The lower value of the choice at a place.
fn lower_value(model: &Model, present: u8, vertex: u32, place: usize, below: Below<'_>) -> i128
    requires present { present < model.now.grid.advisories }
    requires vertex { vertex < vertices model.now.grid }
    requires place { place < length (choices_at model.now present) }
    requires below { HasMeans model.now below }
    ensures { let means = lower_below model.now below.entry (numbers.vertex_at model.now.grid vertex) in
        result ≡ value_by_mean model.now present means (listed_choice model.now present place).advisory }
{
    let choice = choice_at(model, present, place);
    let mean = means_under(model, vertex, choice.advisory, below).lower;
    with_cost(mean, choice.cost)
}

/// The least lower value of the choices at a vertex, in millionths.
pub(crate) fn least_lower(model: &Model, present: u8, vertex: u32, below: Below<'_>) -> i128
    requires present { present < model.now.grid.advisories }
    requires vertex { vertex < vertices model.now.grid }
    requires below { HasMeans model.now below }
    ensures { let means = lower_below model.now below.entry (numbers.vertex_at model.now.grid vertex) in
        result ≡ least (value_by_mean model.now present means) (choices_at model.now present) }
{
    let mut place = choice_count(model, present) - 1;
    let mut least = lower_value(model, present, vertex, place, below);
    while place > 0 {
        place -= 1;
        least = lower_value(model, present, vertex, place, below).min(least);
    }
    least
}
