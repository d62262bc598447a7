//! The search of a flight in contact.
ghost use Rattle.std.specs.Prelude.{◌≡◌, ◌<◌};
ghost use Rattle.std.specs.List.{All};
ghost use Rattle.acas_frac.specs.Fraction.{IsReduced};
ghost use Rattle.acas_flight.specs.Response.{demand_of};
ghost use Rattle.acas_areas.specs.Limits.{IsEnd, IsTime};
ghost use Rattle.acas_areas.specs.View.{area_of};
ghost use Rattle.acas_areas.specs.Search.{CanMeet, high_flight, low_flight, unit};
ghost use Rattle.acas_witness_plans.specs.Plans.{CanBeFlown, IsOutcomeOf};
ghost use Rattle.acas_rulings.specs.Printed.{flight_fractions};
ghost use Rattle.acas_witness_response.specs.PrintedPlans.{PrintsPlan};
ghost use Rattle.acas_witness_search.specs.Surveys.{search_of};
ghost use Rattle.acas_rulings.specs.Witness.{IsClearIn, IsEndangeredIn, IsInContactIn, IsTimeOf, IsWitnessIn, search_between};
ghost use Rattle.acas_witness.specs.FoundPlans.{IsFoundPlan, IsPlanFor};

use acas_areas::{BoxState, Window};
use acas_base::Model;
use acas_frac::Frac;
use acas_region::{high_extreme, low_extreme};
use acas_rulings::Flight;
use acas_witness_plans::{Outcome, Plan, fly, is_in_contact, natural, rate_steps};
use acas_witness_response::{held_part, open_flight, segments_of};
use acas_witness_search::{Survey, through};

// The low flight.
fn low_outcome(survey: &Survey) -> Outcome
    ensures { IsOutcomeOf (unit (search_of survey.now)) (low_flight (search_of survey.now)) result }
{
    fly(&survey.low_plan())
}

// The high flight.
fn high_outcome(survey: &Survey) -> Outcome
    ensures { IsOutcomeOf (unit (search_of survey.now)) (high_flight (search_of survey.now)) result }
{
    fly(&survey.plan_from(rate_steps(survey.area.v0.greatest)))
}

// The flight that the search finds.
fn meet(survey: &Survey) -> Plan
    requires { CanMeet survey.now.half (search_of survey.now) }
    ensures found { IsFoundPlan survey.now.half (search_of survey.now) result }
    ensures flown { CanBeFlown result }
{
    let lowest = low_outcome(survey);
    if is_in_contact(&lowest, survey.half) {
        return lowest.plan;
    }
    let highest = high_outcome(survey);
    if is_in_contact(&highest, survey.half) {
        return highest.plan;
    }
    through(survey)
}

/// What the search of an area under an advisory of a model goes through, between two times.
pub fn survey_of(model: &Model, area: &BoxState, advisory: u8, low: &Frac, high: &Frac) -> Survey
    requires advisory { advisory < model.now.grid.advisories }
    requires low { IsEnd low.now }
    requires high { IsEnd high.now }
    ensures half { result.half ≡ model.now.half }
    ensures search { search_of result
        ≡ search_between (demand_of model.now advisory) (area_of area.now) low.now high.now }
{
    let _ = model.grid();
    let interval = model.advisory(advisory);
    Survey {
        half: natural(model.half()),
        lo: interval.lo,
        hi: interval.hi,
        pull: natural(model.pull()),
        limit: natural(model.limit()),
        delay: natural(model.delay()),
        area: *area,
        low: *low,
        high: *high,
    }
}

// The flight of an area that is not clear.
fn plan_in(model: &Model, area: &BoxState, window: &Window, advisory: u8) -> Plan
    requires advisory { advisory < model.now.grid.advisories }
    requires not_clear { ¬ IsClearIn model.now advisory area.now window.now }
    ensures plan { IsPlanFor model.now advisory area.now window.now result }
    ensures flown { CanBeFlown result }
{
    let low = low_extreme(model, area, window, advisory);
    let high = high_extreme(model, area, window, advisory);
    meet(&survey_of(model, area, advisory, &low.time, &high.time))
}

/// A flight of the search, with its response.
pub fn flight_of(plan: &Plan) -> Flight
    requires { CanBeFlown plan.now }
    ensures prints { PrintsPlan plan.now result }
    ensures time { result.time ≡ plan.now.time }
    ensures reduced { All IsReduced (flight_fractions result) }
{
    let (hold, rest) = held_part(&plan.time, &plan.hold);
    let (first, second) = segments_of(&plan.own, &plan.aim, &plan.pull, &rest);
    let flight = Flight {
        time: plan.time,
        h: plan.altitude,
        v0: plan.own,
        v1: plan.intruder,
        hold,
        first,
        second,
    };
    open_flight(&flight);
    flight
}

/// The flight into the puck of an area that is not clear in the window. It starts in the area, its response meets the advisory and
/// lasts a time of the window, and it ends within the half height. It is the flight of the rule, which fixes one for each such area.
pub fn find(model: &Model, area: &BoxState, window: &Window, advisory: u8) -> Flight
    requires advisory { advisory < model.now.grid.advisories }
    requires not_clear { ¬ IsClearIn model.now advisory area.now window.now }
    ensures rule { IsWitnessIn model.now advisory area.now window.now result }
    ensures contact { IsInContactIn model.now advisory area.now window.now result }
    ensures endangered { IsEndangeredIn model.now advisory area.now window.now }
    ensures time { IsTime result.time }
    ensures during { IsTimeOf window.now result.time }
{
    let plan = plan_in(model, area, window, advisory);
    flight_of(&plan)
}
