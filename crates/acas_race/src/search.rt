//! The times between which a meeting is searched.
ghost use Rattle.std.specs.Prelude.{◌<◌};
ghost use Rattle.acas_flight.specs.Response.{demand_of};
ghost use Rattle.acas_areas.specs.Limits.{IsEnd};
ghost use Rattle.acas_areas.specs.View.{area_of, times_of};
ghost use Rattle.acas_rulings.specs.Intruder.{RatesFit};
ghost use Rattle.acas_rulings.specs.Least.{IsRaceExtreme};
ghost use Rattle.acas_rulings.specs.Race.{high_race, low_race, turned};
ghost use Rattle.acas_rulings.specs.MeetingView.{may_of};

use crate::conflict::Conflict;
use crate::nearest::nearest_time;
use crate::sides::{high_contest, low_contest};
use acas_frac::Frac;
use acas_region::asked_by;

/// When the low curve of an area is first nearest the intruder that goes to its greatest rate, and when the high curve is first nearest
/// the one that goes to its least: in seconds, from 0 to 600, over 5000 at most.
#[derive(Clone, Copy)]
pub struct SearchTimes {
    pub low: Frac,
    pub high: Frac,
}

/// The two times of an area in a window, under an advisory. The intruder's rates in the area are at most its greatest.
pub fn search_times(on: &Conflict<'_>) -> SearchTimes
    requires advisory { on.now.advisory < on.now.model.now.grid.advisories }
    requires fits { RatesFit (may_of on.now.may.now) (area_of on.now.area.now).intruder }
    ensures low { IsRaceExtreme
        (low_race (demand_of on.now.model.now on.now.advisory) (may_of on.now.may.now)
        (area_of on.now.area.now))
        (times_of on.now.window.now) result.low }
    ensures high { IsRaceExtreme
        (turned (high_race (demand_of on.now.model.now on.now.advisory) (may_of on.now.may.now)
        (area_of on.now.area.now)))
        (times_of on.now.window.now) result.high }
    ensures low_end { IsEnd result.low }
    ensures high_end { IsEnd result.high }
{
    let asked = asked_by(on.model, on.advisory);
    SearchTimes {
        low: nearest_time(&low_contest(&asked, on.may, on.area), on.window),
        high: nearest_time(&high_contest(&asked, on.may, on.area), on.window),
    }
}
