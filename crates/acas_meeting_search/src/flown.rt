//! Courses as flown, and where both aircraft end.
ghost use Rattle.std.specs.Prelude.{◌≡◌, ◌*◌, ◌^◌, ◌<◌, ◌≤◌, ◌↔◌, IsTrue, pos, ◌*ℤ◌, unsigned_abs};
ghost use Rattle.acas_frac.specs.Fraction.{Fraction, IsFrac, whole_of};
ghost use Rattle.acas_flight.specs.Values.{IsApproach, IsHeld};
ghost use Rattle.acas_areas.specs.Value.{IsWithinHalf, is_below};
ghost use Rattle.acas_witness_plans.specs.Plans.{CanBeFlown};
ghost use Rattle.acas_meeting_search.specs.Turns.{CanBeFlownWith, value_in};

use crate::parts::{Flown, Outcome, Turn};
use acas_frac::Frac;
use acas_region_curves::{approach, held};
use acas_rulings::Manoeuvre;
use acas_units::{GREATEST_HALF_HEIGHT, TICKS_PER_FOOT};
use acas_witness_plans::{Plan, difference_parts};

// The intruder's climb with its greatest acceleration.
fn ascent_of(turn: &Turn, may: &Manoeuvre) -> Frac
    requires { CanBeFlownWith may.now.accel turn.now }
    ensures ascent { let t = turn.now in
        IsApproach t.intruder t.goal (whole_of may.now.accel) t.time result }
    ensures lowest { IsFrac result }
{
    approach(
        &turn.intruder,
        &turn.goal,
        &Frac::whole(may.accel),
        &turn.time,
    )
}

/// The plan and the turn as flown, with the intruder's greatest acceleration.
pub(crate) fn fly_against(plan: &Plan, turn: &Turn, may: &Manoeuvre) -> Outcome
    requires plan { CanBeFlown plan.now }
    requires turn { CanBeFlownWith may.now.accel turn.now }
    ensures plan { result.flown.plan ≡ plan.now }
    ensures turn { result.flown.turn ≡ turn.now }
    ensures climb { IsHeld plan.now.own plan.now.aim plan.now.pull plan.now.hold plan.now.time result.climb }
    ensures climb_some { 0 < Fraction.den result.climb }
    ensures ascent { let t = turn.now in
        IsApproach t.intruder t.goal (whole_of may.now.accel) t.time result.ascent }
    ensures ascent_some { 0 < Fraction.den result.ascent }
{
    Outcome {
        flown: Flown {
            plan: *plan,
            turn: *turn,
        },
        climb: held(&plan.own, &plan.aim, &plan.pull, &plan.hold, &plan.time),
        ascent: ascent_of(turn, may),
    }
}

// A number of ticks over a denominator.
fn ticks_over(ticks: i64, den: i128) -> i128
    requires ticks { unsigned_abs ticks ≤ 10 ^ 7 }
    requires den { unsigned_abs den ≤ 10 ^ 26 }
    ensures value { result ≡ ticks *ℤ den }
    ensures size { unsigned_abs result ≤ 10 ^ 33 }
{
    i128::from(ticks) * den
}

// How far the own climb is above where the intruder ends, and the half height, over a common denominator.
fn clearance(outcome: &Outcome, half: u64) -> (i128, i128)
    requires { half ≤ TICKS_PER_FOOT * GREATEST_HALF_HEIGHT }
    ensures value { result.0 ≡ Fraction.num (value_in outcome.now) }
    ensures size { unsigned_abs result.0 ≤ 3 * 10 ^ 37 }
    ensures band { result.1 ≡ pos (half * Fraction.den (value_in outcome.now)) }
    ensures band_size { unsigned_abs result.1 ≤ 10 ^ 33 }
{
    let (apart, den) = difference_parts(&outcome.climb, &outcome.ascent);
    let value = apart - ticks_over(outcome.flown.plan.altitude, den);
    (value, ticks_over(half as i64, den))
}

/// Whether the course is below.
pub(crate) fn is_under(outcome: &Outcome, half: u64) -> bool
    requires { half ≤ TICKS_PER_FOOT * GREATEST_HALF_HEIGHT }
    ensures { result ≡ is_below half (value_in outcome.now) }
{
    let (value, band) = clearance(outcome, half);
    value < -band
}

/// Whether the course ends in contact.
pub(crate) fn is_in_contact(outcome: &Outcome, half: u64) -> bool
    requires { half ≤ TICKS_PER_FOOT * GREATEST_HALF_HEIGHT }
    ensures { IsTrue result ↔ IsWithinHalf half (value_in outcome.now) }
{
    let (value, band) = clearance(outcome, half);
    -band <= value && value <= band
}
