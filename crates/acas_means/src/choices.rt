//! The choices under a present advisory.
ghost use Rattle.std.specs.Prelude.{◌≡◌, ◌<◌, ◌+ℤ◌, length};
ghost use Rattle.acas_spec.specs.Model.{choices_at};
ghost use Rattle.acas_process.specs.Values.{millionths};
ghost use Rattle.acas_process.specs.Cost.{IsKnownChoice};
ghost use Rattle.acas_means.specs.Choices.{listed_choice};

use acas_base::Model;
use acas_spec::Choice;

/// How many advisories may be chosen under a present one. There is one at least.
pub fn choice_count(model: &Model, present: u8) -> usize
    requires { present < model.now.grid.advisories }
    ensures value { result ≡ length (choices_at model.now present) }
    ensures some { 0 < result }
{
    let _ = model.grid();
    model.choices(present).len()
}

/// The choice at a place of a present advisory's list.
pub fn choice_at(model: &Model, present: u8, place: usize) -> Choice
    requires present { present < model.now.grid.advisories }
    requires place { place < length (choices_at model.now present) }
    ensures value { result ≡ listed_choice model.now present place }
    ensures known { IsKnownChoice model.now present result }
{
    choice_among(model, present, model.choices(present), place)
}

/// The choice at a place of a present advisory's list, where the list is at hand.
pub fn choice_among(model: &Model, present: u8, choices: &[Choice], place: usize) -> Choice
    requires present { present < model.now.grid.advisories }
    requires choices { choices.now ≡ choices_at model.now present }
    requires place { place < length (choices_at model.now present) }
    ensures value { result ≡ listed_choice model.now present place }
    ensures known { IsKnownChoice model.now present result }
{
    let _ = model.grid();
    choices[place]
}

/// The value of a choice by its mean: the cost is in units, the rest in millionths.
pub fn with_cost(mean: i64, cost: i64) -> i128
    ensures { result ≡ mean +ℤ millionths cost }
{
    i128::from(mean) + 1_000_000 * i128::from(cost)
}
