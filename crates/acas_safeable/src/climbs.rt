//! How much may be climbed within a second, and how far above the intruder is then.
ghost use Rattle.std.specs.Prelude.{◌≡◌, ◌*◌, ◌^◌, ◌<◌, ◌≤◌, pos, ◌+ℤ◌, ◌-ℤ◌, ◌*ℤ◌, unsigned_abs};
ghost use Rattle.acas_flight.specs.Curves.{held, high_pull, highest, low_pull, lowest};
ghost use Rattle.acas_areas.specs.Sizes.{altitude_size};
ghost use Rattle.acas_areas.specs.View.{demand_in};
ghost use Rattle.acas_safeable.specs.Climbs.{IsClimb};

use acas_areas::Asked;
use acas_frac::Rounding;
use acas_region_curves::numerator;
use acas_units::{GREATEST_LIMIT, GREATEST_RATE};

/// A climb within a second in ticks, times the pull of its curve, and that pull.
#[derive(Clone, Copy)]
pub(crate) struct Climb {
    pub times_pull: i128,
    pub pull: u64,
    ghost within: { IsClimb times_pull pull },
}

// The climb within a second from a rate toward an aim, with the pull and after the hold.
fn climb_to(start: i64, aim: i64, pull: u64, hold: u64) -> Climb
    requires start { unsigned_abs start ≤ unsigned_abs GREATEST_RATE }
    requires aim { unsigned_abs aim ≤ unsigned_abs GREATEST_RATE }
    requires some { 0 < pull }
    requires pull { pull ≤ GREATEST_LIMIT }
    ensures climb { result.times_pull ≡ held start aim pull hold 1 }
    ensures pull { result.pull ≡ pull }
{
    Climb {
        times_pull: numerator(start, aim, pull, hold, 1),
        pull,
    }
}

/// The least climb within a second from a rate.
pub(crate) fn lowest(asked: &Asked, rate: i64) -> Climb
    requires { unsigned_abs rate ≤ unsigned_abs GREATEST_RATE }
    ensures climb { result.times_pull ≡ lowest (demand_in asked.now) rate 1 }
    ensures pull { result.pull ≡ low_pull (demand_in asked.now) rate }
{
    if rate < asked.lo {
        climb_to(rate, asked.lo, asked.pull, asked.delay)
    } else {
        climb_to(rate, asked.lo, asked.limit, 0)
    }
}

/// The greatest climb within a second from a rate.
pub(crate) fn highest(asked: &Asked, rate: i64) -> Climb
    requires { unsigned_abs rate ≤ unsigned_abs GREATEST_RATE }
    ensures climb { result.times_pull ≡ highest (demand_in asked.now) rate 1 }
    ensures pull { result.pull ≡ high_pull (demand_in asked.now) rate }
{
    if asked.hi < rate {
        climb_to(rate, asked.hi, asked.pull, asked.delay)
    } else {
        climb_to(rate, asked.hi, asked.limit, 0)
    }
}

// Where the intruder is after a second that flies at the rate from the altitude.
fn flown(altitude: i64, rate: i64) -> i64
    requires altitude { unsigned_abs altitude ≤ altitude_size }
    requires rate { unsigned_abs rate ≤ unsigned_abs GREATEST_RATE }
    ensures value { result ≡ altitude +ℤ pos 2 *ℤ rate }
    ensures size { unsigned_abs result ≤ 2 * altitude_size }
{
    altitude + 2 * rate
}

// An altitude times a pull.
fn scaled(altitude: i64, pull: u64) -> i64
    requires altitude { unsigned_abs altitude ≤ 2 * altitude_size }
    requires pull { pull ≤ GREATEST_LIMIT }
    ensures value { result ≡ altitude *ℤ pos pull }
    ensures size { unsigned_abs result ≤ 10 ^ 10 }
{
    altitude * pull as i64
}

// How far the intruder is above after a second, times the pull.
fn above(altitude: i64, rate: i64, climb: Climb) -> i128
    requires altitude { unsigned_abs altitude ≤ altitude_size }
    requires rate { unsigned_abs rate ≤ unsigned_abs GREATEST_RATE }
    ensures value { result ≡ (altitude +ℤ pos 2 *ℤ rate) *ℤ pos climb.pull -ℤ climb.times_pull }
    ensures size { unsigned_abs result ≤ 10 ^ 37 }
{
    i128::from(scaled(flown(altitude, rate), climb.pull)) - climb.times_pull
}

/// How far the intruder is above after a second, in ticks and rounded.
pub(crate) fn altitude_after<R: Rounding>(altitude: i64, rate: i64, climb: Climb) -> i128
    requires altitude { unsigned_abs altitude ≤ altitude_size }
    requires rate { unsigned_abs rate ≤ unsigned_abs GREATEST_RATE }
    ensures { result ≡
        R.round ((altitude +ℤ pos 2 *ℤ rate) *ℤ pos climb.pull -ℤ climb.times_pull) (pos climb.pull) }
{
    R::div(above(altitude, rate, climb), i128::from(climb.pull))
}
