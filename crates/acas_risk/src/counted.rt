//! What is counted along a flight, and what its seconds and its end count, in millionths.
ghost use Rattle.std.specs.Prelude.{◌≡◌, ℕ, ◌<◌, ◌≤◌, ◌^◌, pos, unsigned_abs, get_or};
ghost use Rattle.acas_spec.specs.Model.{vertices};
ghost use Rattle.acas_grid.specs.States as numbers;
ghost use Rattle.acas_process.specs.Values.{millionths};
ghost use Rattle.acas_process.specs.Cost.{cost_of, terminal_cost};
ghost use Rattle.acas_risk.specs.Counts.{AreSecondCosts, model_counting};

use acas_base::Model;
use acas_grid::vertex_at;
use acas_means::{advisory_count, choice_at, choice_count};
use acas_units::GREATEST_ADVISORIES;

/// What is counted along a flight.
#[derive(Clone, Copy)]
pub(crate) enum Counted {
    /// Contact at its end, as 1.
    Contacts,
    /// What its seconds and its end cost.
    Costs,
}

/// What a second costs, in millionths, by the number of the present advisory and of the one that is given.
pub(crate) type SecondCosts = [[i64; GREATEST_ADVISORIES as usize]; GREATEST_ADVISORIES as usize];

// What contact counts, in units.
fn contact_of(model: &Model, counted: Counted) -> i64
    ensures value { result ≡ (model_counting counted model.now).contact }
    ensures limits { unsigned_abs result ≤ 10 ^ 9 }
{
    let _ = model.grid();
    match counted {
        Counted::Contacts => 1,
        Counted::Costs => model.contact(),
    }
}

/// What the end at a vertex counts, in millionths.
pub(crate) fn ending(model: &Model, counted: Counted, vertex: u32) -> i64
    requires { vertex < vertices model.now.grid }
    ensures value { result
        ≡ millionths (terminal_cost (model_counting counted model.now)
        (numbers.vertex_at model.now.grid vertex)) }
    ensures limits { unsigned_abs result ≤ 10 ^ 15 }
{
    let grid = model.grid();
    let place = vertex_at(grid, vertex).i;
    if grid.h.value(place).abs() <= model.half() {
        return 1_000_000 * contact_of(model, counted);
    }
    0
}

// What a second costs under each advisory where one is present, and 0 where it may not be chosen.
fn costs_under(model: &Model, present: u8) -> [i64; GREATEST_ADVISORIES as usize]
    requires { present < model.now.grid.advisories }
    ensures { (a : ℕ) → a < model.now.grid.advisories
        → get_or result a (pos 0) ≡ millionths (cost_of model.now present a) }
{
    let _ = model.grid();
    let mut costs = [0; GREATEST_ADVISORIES as usize];
    let mut place = choice_count(model, present);
    while place > 0 {
        place -= 1;
        let choice = choice_at(model, present, place);
        costs[usize::from(choice.advisory)] = 1_000_000 * choice.cost;
    }
    costs
}

// What a second costs under each advisory where each is present.
fn costs_of(model: &Model) -> SecondCosts
    ensures { AreSecondCosts model.now result }
{
    let mut costs = [[0; GREATEST_ADVISORIES as usize]; GREATEST_ADVISORIES as usize];
    for present in 0..advisory_count(model) {
        costs[usize::from(present)] = costs_under(model, present);
    }
    costs
}

/// What a second counts under each advisory where each is present.
pub(crate) fn second_costs(model: &Model, counted: Counted) -> SecondCosts
    ensures { AreSecondCosts (model_counting counted model.now) result }
{
    // A model within its limits has no more advisories than there are places.
    let _ = model.grid();
    match counted {
        Counted::Contacts => [[0; GREATEST_ADVISORIES as usize]; GREATEST_ADVISORIES as usize],
        Counted::Costs => costs_of(model),
    }
}
