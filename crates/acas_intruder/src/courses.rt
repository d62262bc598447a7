//! The course of an area that is not apart.
ghost use Rattle.std.specs.Prelude.{◌≡◌, ◌<◌};
ghost use Rattle.acas_flight.specs.Response.{demand_of};
ghost use Rattle.acas_areas.specs.Limits.{IsEnd};
ghost use Rattle.acas_areas.specs.View.{area_of, times_of};
ghost use Rattle.acas_rulings.specs.Witness.{IsTimeOf};
ghost use Rattle.acas_rulings.specs.Apart.{IsApart};
ghost use Rattle.acas_rulings.specs.Intruder.{RatesFit};
ghost use Rattle.acas_rulings.specs.MeetingView.{may_of};
ghost use Rattle.acas_rulings.specs.Verdicts.{hunt_between};
ghost use Rattle.acas_witness_plans.specs.Plans.{CanBeFlown};
ghost use Rattle.acas_meeting_search.specs.Turns.{CanBeFlownWith};
ghost use Rattle.acas_meeting_search.specs.View.{hunt_of};
ghost use Rattle.acas_intruder.specs.Courses.{IsCourseIn};

use acas_meeting_search::{Flown, Pursuit, meet};
use acas_race::{Conflict, SearchTimes, search_times};
use acas_witness::survey_of;

// What the search of a meeting goes through in an area under an advisory, between two times.
fn pursuit_of(on: &Conflict<'_>, times: &SearchTimes) -> Pursuit
    requires advisory { on.now.advisory < on.now.model.now.grid.advisories }
    requires fits { RatesFit (may_of on.now.may.now) (area_of on.now.area.now).intruder }
    requires low { IsEnd times.now.low }
    requires high { IsEnd times.now.high }
    ensures half { result.survey.half ≡ on.now.model.now.half }
    ensures may { result.may ≡ on.now.may.now }
    ensures hunt { let asked = demand_of on.now.model.now on.now.advisory in
        hunt_of result ≡ hunt_between asked (may_of on.now.may.now) (area_of on.now.area.now)
        times.now.low times.now.high }
{
    Pursuit {
        survey: survey_of(on.model, on.area, on.advisory, &times.low, &times.high),
        may: *on.may,
    }
}

/// The course that is found in an area that is not apart in the window, under an advisory. It lasts a time of the window.
pub(crate) fn course_in(on: &Conflict<'_>) -> Flown
    requires advisory { on.now.advisory < on.now.model.now.grid.advisories }
    requires fits { RatesFit (may_of on.now.may.now) (area_of on.now.area.now).intruder }
    requires not_apart { ¬ IsApart on.now.model.now.half (demand_of on.now.model.now on.now.advisory)
        (may_of on.now.may.now) (area_of on.now.area.now) (times_of on.now.window.now) }
    ensures course { IsCourseIn on.now.model.now.half (demand_of on.now.model.now on.now.advisory)
        (may_of on.now.may.now) (area_of on.now.area.now) (times_of on.now.window.now) result }
    ensures flown { CanBeFlown result.plan }
    ensures turned { CanBeFlownWith on.now.may.now.accel result.turn }
    ensures during { IsTimeOf on.now.window.now result.plan.time }
{
    let times = search_times(on);
    meet(&pursuit_of(on, &times))
}
