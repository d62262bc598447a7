//! The choices under a present advisory with their costs in millionths, made once for all entries of a column under it.
ghost use Rattle.std.specs.Prelude.{◌≡◌, ◌<◌};
ghost use Rattle.acas_process.specs.Cost.{IsKnownChoice};
ghost use Rattle.acas_sweep.specs.Priced.{IsPriced, IsPricedList};

use acas_base::Model;
use acas_means::{choice_at, choice_count};
use acas_spec::Choice;
use acas_units::GREATEST_ADVISORIES;

/// A choice with its cost in millionths.
#[derive(Clone, Copy)]
pub(crate) struct PricedChoice {
    pub(crate) advisory: u8,
    pub(crate) cost: i64,
}

/// The choices under a present advisory, in the order of its list.
#[derive(Clone, Copy)]
pub(crate) struct PricedList {
    pub(crate) count: usize,
    pub(crate) choices: [PricedChoice; GREATEST_ADVISORIES as usize],
}

// A choice of a present advisory with its cost in millionths.
fn priced_choice(model: &Model, present: u8, choice: &Choice) -> PricedChoice
    requires { IsKnownChoice model.now present choice.now }
    ensures advisory { result.advisory ≡ choice.now.advisory }
    ensures priced { IsPriced model.now present result }
{
    // A model within its limits has no more advisories than there are means.
    let _ = model.grid();
    PricedChoice {
        advisory: choice.advisory,
        cost: 1_000_000 * choice.cost,
    }
}

/// The choices under a present advisory.
pub(crate) fn priced_list(model: &Model, present: u8) -> PricedList
    requires { present < model.now.grid.advisories }
    ensures { IsPricedList model.now present result }
{
    // A model within its limits has no more choices under an advisory than it may have advisories.
    let _ = model.grid();
    let count = choice_count(model, present);
    let none = PricedChoice {
        advisory: 0,
        cost: 0,
    };
    let mut choices = [none; GREATEST_ADVISORIES as usize];
    for place in 0..count {
        choices[place] = priced_choice(model, present, &choice_at(model, present, place));
    }
    PricedList { count, choices }
}
