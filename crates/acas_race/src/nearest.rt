//! The first time of a window at which a curve is nearest the intruder.
ghost use Rattle.acas_areas.specs.Limits.{IsEnd};
ghost use Rattle.acas_areas.specs.View.{times_of};
ghost use Rattle.acas_rulings.specs.Least.{IsFirstLeastTime, IsRaceExtreme};
ghost use Rattle.acas_rulings.specs.Turns.{fraction_of};
ghost use Rattle.acas_race.specs.View.{instant_at, race_in};

use crate::contest::Contest;
use crate::first::first_least;
use acas_areas::{Moment, Window};
use acas_frac::Frac;
use acas_region::{moment_of, time_of};

/// The first time of the window at which the curve is least above the intruder.
pub(crate) fn nearest(contest: &Contest, window: &Window) -> Moment
    ensures { IsFirstLeastTime (race_in contest.now) (times_of window.now) (fraction_of (instant_at result)) }
{
    first_least(contest, &moment_of(&window.from), &moment_of(&window.to))
}

/// The same time, in lowest terms.
pub(crate) fn nearest_time(contest: &Contest, window: &Window) -> Frac
    ensures extreme { IsRaceExtreme (race_in contest.now) (times_of window.now) result }
    ensures end { IsEnd result }
{
    let at = nearest(contest, window);
    let time = time_of(at.num, at.den);
    let _ = time.num();
    time
}
