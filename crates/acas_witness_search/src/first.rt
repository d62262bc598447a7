//! The first flight that is not below, in a pass along which the value of a flight never falls.
ghost use Rattle.std.specs.Prelude.{◌≡◌, ℕ, ◌+◌, ◌<◌, true, false};
ghost use Rattle.acas_areas.specs.Halving.{HalvesTo};
ghost use Rattle.acas_witness_plans.specs.Plans.{CanBeFlown};
ghost use Rattle.acas_witness_search.specs.Order.{rises};
ghost use Rattle.acas_witness_search.specs.Surveys.{below_in, IsPointOf, pass_of};

use crate::quantity::SearchPass;
use acas_areas::Pass;
use acas_witness_plans::{Outcome, Plan};

/// The flight at which the halving of a pass ends, from the flight of its last point. As its values never fall, that is the first one
/// that is not below. The search begins at a guess, and goes on beside it in steps that double.
pub(crate) fn first_from(pass: &SearchPass, last: &Outcome, guess: u32) -> Plan
    requires rises { rises pass.now.quantity ≡ true }
    requires first_is_below { below_in pass.now.survey pass.now.quantity 0 ≡ true }
    requires last_is_not { below_in pass.now.survey pass.now.quantity pass.now.last ≡ false }
    requires last_point { IsPointOf pass.now.survey (pass_of pass.now.quantity) pass.now.last last.now.plan }
    requires last_flown { CanBeFlown last.now.plan }
    ensures end { (end : ℕ) × HalvesTo (below_in pass.now.survey pass.now.quantity) 0 pass.now.last end
        × IsPointOf pass.now.survey (pass_of pass.now.quantity) end result }
    ensures flown { CanBeFlown result }
{
    let mut found = last.plan;
    let mut low: u32 = 0;
    let mut high = pass.last;
    let mut next = guess;
    let mut step: u32 = 1;
    while high - low > 1 {
        let middle = between(low, high, next);
        let flight = pass.at(middle);
        if pass.is_below(&flight) {
            low = middle;
            next = middle.saturating_add(step);
        } else {
            high = middle;
            next = middle.saturating_sub(step);
            found = flight.plan;
        }
        step = step.saturating_mul(2);
    }
    found
}

// A point between two others: the wanted one, if it is, and otherwise the one in the middle.
fn between(low: u32, high: u32, wanted: u32) -> u32
    requires { low + 1 < high }
    ensures after { low < result }
    ensures before { result < high }
{
    if low < wanted && wanted < high {
        wanted
    } else {
        low + (high - low) / 2
    }
}
