//! The search of a meeting through all passes.
ghost use Rattle.std.specs.Prelude.{◌≡◌, false, MatchOption};
ghost use Rattle.acas_areas.specs.Value.{is_below};
ghost use Rattle.acas_rulings.specs.Hunt.{CanMeet, high_course, low_course};
ghost use Rattle.acas_meeting_search.specs.Courses.{IsEndFrom, IsFlownOf, IsFoundCourse, IsHitIn, IsMissedIn, IsOutcomeOf, StartsBelow, value_at};
ghost use Rattle.acas_meeting_search.specs.View.{hunt_of};

use crate::flown::{fly_against, is_in_contact};
use crate::parts::{Flown, Outcome};
use crate::pursuit::Pursuit;
use crate::stage::Stage;
use crate::stage_pass::StagePass;
use acas_areas::{Pass, halve};
use acas_witness_plans::rate_steps;
use acas_witness_search::Quantity;

// The course at which the halving of a pass ends, if the last course of the pass is not below.
fn hit(pursuit: &Pursuit, stage: Stage) -> Option<Flown>
    requires { StartsBelow pursuit.now stage }
    ensures { MatchOption result (IsMissedIn pursuit.now stage) (λ found. IsHitIn pursuit.now stage found) }
{
    let pass = StagePass {
        pursuit: *pursuit,
        stage,
        last: pursuit.last(stage),
    };
    if pass.is_below(&pass.at(pass.last)) {
        None
    } else {
        Some(halve(&pass, pass.last).flown)
    }
}

// The course at which the passes from one on end.
fn search_from(pursuit: &Pursuit, stage: Stage) -> Flown
    requires first { StartsBelow pursuit.now stage }
    requires last { let high = high_course (hunt_of pursuit.now) in
        is_below pursuit.now.survey.half (value_at pursuit.now high) ≡ false }
    ensures { IsEndFrom pursuit.now stage result }
{
    match hit(pursuit, stage) {
        Some(found) => found,
        None => match stage.next() {
            Some(next) => search_from(pursuit, next),
            None => unreachable!(),
        },
    }
}

// The low course.
fn lowest(pursuit: &Pursuit) -> Outcome
    ensures { IsOutcomeOf pursuit.now (low_course (hunt_of pursuit.now)) result }
{
    let plan = pursuit.survey.low_plan();
    let turn = pursuit.upward(&pursuit.survey.low);
    fly_against(&plan, &turn, &pursuit.may)
}

// The high course.
fn highest(pursuit: &Pursuit) -> Outcome
    ensures { IsOutcomeOf pursuit.now (high_course (hunt_of pursuit.now)) result }
{
    let survey = &pursuit.survey;
    let plan = survey.plan_from(rate_steps(survey.area.v0.greatest));
    let turn = pursuit.downward(&survey.high);
    fly_against(&plan, &turn, &pursuit.may)
}

/// The course that the search finds: the low course if it ends in contact, otherwise the high course if that does, and otherwise the
/// one at which the passes end. The low course is not above the puck, and the high course is not below it.
pub fn meet(pursuit: &Pursuit) -> Flown
    requires { CanMeet pursuit.now.survey.half (hunt_of pursuit.now) }
    ensures { IsFoundCourse pursuit.now result }
{
    let low = lowest(pursuit);
    if is_in_contact(&low, pursuit.survey.half) {
        return low.flown;
    }
    let high = highest(pursuit);
    if is_in_contact(&high, pursuit.survey.half) {
        return high.flown;
    }
    search_from(pursuit, Stage::Of(Quantity::Time))
}
