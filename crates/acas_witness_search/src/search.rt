//! The search through all passes.
ghost use Rattle.std.specs.Prelude.{◌≡◌, true, MatchOption};
ghost use Rattle.acas_areas.specs.Value.{is_below};
ghost use Rattle.acas_areas.specs.Flights.{value};
ghost use Rattle.acas_areas.specs.Search.{low_flight, passes, unit};
ghost use Rattle.acas_witness_search.specs.Passes.{IsEndIn, IsHitIn, IsMissedIn, passes_from};
ghost use Rattle.acas_witness_search.specs.Surveys.{EndsNotBelow, StartsBelow, pass_of, search_of};

use crate::first::first_from;
use crate::quantity::{Quantity, SearchPass};
use crate::survey::Survey;
use acas_areas::{Pass, halve};
use acas_witness_plans::Plan;

// The flight at which the halving of a pass ends, if the last flight of the pass is not below. Where the values of a pass never fall, it
// is searched from a guess.
fn hit(survey: &Survey, quantity: Quantity) -> Option<Plan>
    requires { StartsBelow survey.now (pass_of quantity) }
    ensures { MatchOption result
        (IsMissedIn survey.now (pass_of quantity))
        (λ found. IsHitIn survey.now (pass_of quantity) found) }
{
    let pass = SearchPass {
        survey: *survey,
        quantity,
        last: survey.last(quantity),
    };
    let last = pass.at(pass.last);
    if pass.is_below(&last) {
        return None;
    }
    match survey.guess(quantity, pass.last, &last) {
        Some(guess) => Some(first_from(&pass, &last, guess)),
        None => Some(halve(&pass, pass.last).plan),
    }
}

// The flight at which the passes from that over a quantity on end.
fn search_from(survey: &Survey, quantity: Quantity) -> Plan
    requires first { StartsBelow survey.now (pass_of quantity) }
    requires last { EndsNotBelow survey.now }
    ensures { IsEndIn survey.now (passes_from quantity) result }
{
    match hit(survey, quantity) {
        Some(found) => found,
        None => match quantity.next() {
            Some(next) => search_from(survey, next),
            None => unreachable!(),
        },
    }
}

/// The flight at which all passes end. The low flight is below, and the high flight is not.
pub fn through(survey: &Survey) -> Plan
    requires first { let low = value (unit (search_of survey.now)) (low_flight (search_of survey.now)) in
        is_below survey.now.half low ≡ true }
    requires last { EndsNotBelow survey.now }
    ensures { IsEndIn survey.now passes result }
{
    search_from(survey, Quantity::Time)
}
