//! Whether an area is apart from an intruder that may change its rate, in whole numbers and without a division.
ghost use Rattle.std.specs.Prelude.{◌≡◌, ◌*◌, ◌<◌, ◌≤◌, ◌↔◌, pos, IsTrue, int_lt};
ghost use Rattle.acas_flight.specs.Response.{demand_of};
ghost use Rattle.acas_areas.specs.View.{area_of, demand_in, times_of};
ghost use Rattle.acas_rulings.specs.Apart.{IsApart, StaysAbove};
ghost use Rattle.acas_rulings.specs.Intruder.{RatesFit};
ghost use Rattle.acas_rulings.specs.Turns.{race_number};
ghost use Rattle.acas_rulings.specs.MeetingView.{may_of};
ghost use Rattle.acas_race.specs.View.{instant_at, race_in};

use crate::conflict::Conflict;
use crate::contest::Contest;
use crate::nearest::nearest;
use crate::number::{number, times};
use crate::sides::{high_contest, low_contest};
use acas_areas::{Asked, BoxState, Moment, Window};
use acas_region::{asked_by, natural};
use acas_rulings::Manoeuvre;
use acas_units::{GREATEST_HALF_HEIGHT, TICKS_PER_FOOT};

// Whether the curve is more than the half height above the intruder at a time.
fn is_over(contest: &Contest, at: &Moment, half: u64) -> bool
    requires { half ≤ TICKS_PER_FOOT * GREATEST_HALF_HEIGHT }
    ensures { result ≡ int_lt (pos (half * (at.now.den * at.now.den * contest.now.chase.pull * contest.now.accel)))
        (race_number (race_in contest.now) (instant_at at.now)) }
{
    let band = times(i128::from(half), at.den * at.den * contest.chase.pull);
    times(band, contest.accel) < number(contest, at)
}

// Whether the curve stays more than the half height above it.
fn stays_above(contest: &Contest, window: &Window, half: u64) -> bool
    requires { half ≤ TICKS_PER_FOOT * GREATEST_HALF_HEIGHT }
    ensures { IsTrue result ↔ StaysAbove half (race_in contest.now) (times_of window.now) }
{
    is_over(contest, &nearest(contest, window), half)
}

// Whether the area is apart under what an advisory asks.
fn is_apart_of(asked: &Asked, may: &Manoeuvre, area: &BoxState, window: &Window, half: u64) -> bool
    requires fits { RatesFit (may_of may.now) (area_of area.now).intruder }
    requires half { half ≤ TICKS_PER_FOOT * GREATEST_HALF_HEIGHT }
    ensures { IsTrue result ↔
        IsApart half (demand_in asked.now) (may_of may.now) (area_of area.now) (times_of window.now) }
{
    stays_above(&low_contest(asked, may, area), window, half)
        || stays_above(&high_contest(asked, may, area), window, half)
}

/// Whether the area is apart, in the window, from an intruder that may change its rate: the lowest flight from it that meets the
/// advisory is above the half height at every time, while the intruder goes to its greatest rate, or the highest is below it, while
/// the intruder goes to its least. Then no manoeuvre endangers the area. The intruder's rates in the area are at most its greatest.
pub fn is_apart(on: &Conflict<'_>) -> bool
    requires advisory { on.now.advisory < on.now.model.now.grid.advisories }
    requires fits { RatesFit (may_of on.now.may.now) (area_of on.now.area.now).intruder }
    ensures { IsTrue result ↔ IsApart on.now.model.now.half (demand_of on.now.model.now on.now.advisory)
        (may_of on.now.may.now) (area_of on.now.area.now) (times_of on.now.window.now) }
{
    let _ = on.model.grid();
    let half = natural(on.model.half());
    is_apart_of(
        &asked_by(on.model, on.advisory),
        on.may,
        on.area,
        on.window,
        half,
    )
}
