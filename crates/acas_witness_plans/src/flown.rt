//! Where the flights of the search end.
ghost use Rattle.std.specs.Prelude.{◌≡◌, ◌*◌, ◌^◌, ◌<◌, ◌≤◌, ◌↔◌, IsTrue, pos, ◌*ℤ◌, unsigned_abs};
ghost use Rattle.acas_frac.specs.Fraction.{Fraction};
ghost use Rattle.acas_flight.specs.Values.{IsHeld};
ghost use Rattle.acas_areas.specs.Limits.{IsRate, IsTime};
ghost use Rattle.acas_region_curves.specs.Ratios.{IsShort};
ghost use Rattle.acas_areas.specs.Sizes.{altitude_size, shared_parts};
ghost use Rattle.acas_areas.specs.Value.{is_below, IsWithinHalf};
ghost use Rattle.acas_witness_plans.specs.Plans.{CanBeFlown, IsIntruderEnd, clearance_of};

use crate::plan::{Outcome, Plan};
use acas_areas::{RATE_PARTS, TIME_PARTS};
use acas_frac::Frac;
use acas_region_curves::{Ratio, held_ratio, rate_parts, time_parts};
use acas_units::{GREATEST_HALF_HEIGHT, GREATEST_RATE, TICKS_PER_FOOT, WINDOW_SECONDS};

// An altitude over a denominator.
fn over(altitude: i64, den: u64) -> i64
    requires altitude { unsigned_abs altitude ≤ altitude_size }
    requires den { den ≤ shared_parts }
    ensures value { result ≡ altitude *ℤ pos den }
    ensures size { unsigned_abs result ≤ altitude_size * shared_parts }
{
    altitude * den as i64
}

// Twice a rate over a time.
fn flown(rate: i64, time: u64) -> i64
    requires rate { unsigned_abs rate ≤ unsigned_abs GREATEST_RATE * RATE_PARTS }
    requires time { time ≤ WINDOW_SECONDS * TIME_PARTS }
    ensures value { result ≡ (pos 2 *ℤ rate) *ℤ pos time }
    ensures size { unsigned_abs result
        ≤ 2 * (unsigned_abs GREATEST_RATE * RATE_PARTS) * (WINDOW_SECONDS * TIME_PARTS) }
{
    2 * rate * time as i64
}

// Where an intruder of an altitude and a rate ends after the time.
fn intruder_end(altitude: i64, intruder: &Frac, time: &Frac) -> Ratio
    requires altitude { unsigned_abs altitude ≤ altitude_size }
    requires intruder { IsRate intruder.now }
    requires time { IsTime time.now }
    ensures end { IsIntruderEnd altitude intruder.now time.now result }
    ensures some { 0 < Fraction.den result }
    ensures short { IsShort result }
{
    let (rate, rate_den) = rate_parts(intruder);
    let (num, den) = time_parts(time);
    let shared = rate_den * den;
    Ratio::new(
        i128::from(over(altitude, shared) + flown(rate, num)),
        shared,
    )
}

/// The plan as flown.
pub fn fly(plan: &Plan) -> Outcome
    requires { CanBeFlown plan.now }
    ensures plan { result.plan ≡ plan.now }
    ensures climb { IsHeld plan.now.own plan.now.aim plan.now.pull plan.now.hold plan.now.time result.climb }
    ensures climb_some { 0 < Fraction.den result.climb }
    ensures end { IsIntruderEnd plan.now.altitude plan.now.intruder plan.now.time result.intruder_end }
    ensures end_some { 0 < Fraction.den result.intruder_end }
{
    Outcome {
        plan: *plan,
        climb: held_ratio(&plan.own, &plan.aim, &plan.pull, &plan.hold, &plan.time),
        intruder_end: intruder_end(plan.altitude, &plan.intruder, &plan.time),
    }
}

// The numerator of a climb, over the denominator of where an intruder ends as well.
fn climb_over(num: i128, den: u64) -> i128
    requires num { unsigned_abs num ≤ 2 * 10 ^ 30 }
    requires den { den ≤ shared_parts }
    ensures value { result ≡ num *ℤ pos den }
    ensures size { unsigned_abs result ≤ 3 * 10 ^ 37 }
{
    num * i128::from(den)
}

// The numerator of where an intruder ends, over the denominator of a climb as well.
fn end_over(num: i128, den: u64) -> i128
    requires num { unsigned_abs num ≤ 10 ^ 15 }
    requires den { den ≤ 10 ^ 18 }
    ensures value { result ≡ num *ℤ pos den }
    ensures size { unsigned_abs result ≤ 10 ^ 33 }
{
    num * i128::from(den)
}

/// How far the climb is above where the intruder ends, in ticks: the numerator, and the denominator that the two have in common.
pub fn clearance(outcome: &Outcome) -> (i128, u128)
    ensures num { result.0 ≡ Fraction.num (clearance_of outcome.now.climb outcome.now.intruder_end) }
    ensures num_size { unsigned_abs result.0 ≤ 4 * 10 ^ 37 }
    ensures den { result.1 ≡ Fraction.den (clearance_of outcome.now.climb outcome.now.intruder_end) }
    ensures den_size { result.1 ≤ 10 ^ 26 }
{
    let climb_den = outcome.climb.den();
    let end_den = outcome.intruder_end.den();
    let climb = climb_over(outcome.climb.num(), end_den);
    let end = end_over(outcome.intruder_end.num(), climb_den);
    (climb - end, u128::from(climb_den) * u128::from(end_den))
}

// The half height over a denominator.
fn band_of(half: u64, den: u128) -> i128
    requires half { half ≤ TICKS_PER_FOOT * GREATEST_HALF_HEIGHT }
    requires den { den ≤ 10 ^ 26 }
    ensures value { result ≡ pos (half * den) }
    ensures size { unsigned_abs result ≤ 10 ^ 32 }
{
    (u128::from(half) * den) as i128
}

/// Whether the flight is below.
pub fn is_under(outcome: &Outcome, half: u64) -> bool
    requires { half ≤ TICKS_PER_FOOT * GREATEST_HALF_HEIGHT }
    ensures { result ≡ is_below half (clearance_of outcome.now.climb outcome.now.intruder_end) }
{
    let (value, den) = clearance(outcome);
    value < -band_of(half, den)
}

/// Whether the flight ends in contact.
pub fn is_in_contact(outcome: &Outcome, half: u64) -> bool
    requires { half ≤ TICKS_PER_FOOT * GREATEST_HALF_HEIGHT }
    ensures { IsTrue result ↔ IsWithinHalf half (clearance_of outcome.now.climb outcome.now.intruder_end) }
{
    let (value, den) = clearance(outcome);
    let band = band_of(half, den);
    -band <= value && value <= band
}
