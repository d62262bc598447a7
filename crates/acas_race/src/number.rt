//! How far a curve is above an intruder that goes to a rate of its own: in whole numbers, over those of a time.
ghost use Rattle.std.specs.Prelude.{◌≡◌, ℕ, ◌*◌, ◌^◌, ◌≤◌, pos, ◌+ℤ◌, ◌*ℤ◌, unsigned_abs, int_lt};
ghost use Rattle.acas_flight.specs.Curves.{approach};
ghost use Rattle.acas_rulings.specs.Turns.{race_number};
ghost use Rattle.acas_race.specs.View.{instant_at, race_in};

use crate::contest::Contest;
use acas_areas::Moment;
use acas_region::climb_at;
use acas_units::{GREATEST_CLOSING, GREATEST_LIMIT};

/// A number times a natural one.
pub(crate) fn times(number: i128, by: u64) -> i128
    requires number { unsigned_abs number ≤ 10 ^ 25 }
    requires by { by ≤ GREATEST_CLOSING * GREATEST_CLOSING * GREATEST_LIMIT }
    ensures value { result ≡ number *ℤ pos by }
    ensures size { (m n : ℕ) → unsigned_abs number ≤ m → by ≤ n → unsigned_abs result ≤ m * n }
{
    number * i128::from(by)
}

// Where the intruder is at a time, times its acceleration.
fn intruder_at(contest: &Contest, at: &Moment) -> i128
    ensures value { result ≡ contest.now.chase.height *ℤ pos (at.now.den * at.now.den * contest.now.accel)
        +ℤ approach (contest.now.chase.rate *ℤ pos at.now.den) (contest.now.goal *ℤ pos at.now.den)
        contest.now.accel at.now.num }
    ensures size { unsigned_abs result ≤ 2 * 10 ^ 20 }
{
    let height = times(
        i128::from(contest.chase.height),
        at.den * at.den * contest.accel,
    );
    height + climb_at(contest.chase.rate, contest.goal, contest.accel, 0, at)
}

/// How far the curve is above the intruder at a time, over the square of the time's denominator, the pull and the acceleration.
pub(crate) fn number(contest: &Contest, at: &Moment) -> i128
    ensures value { result ≡ race_number (race_in contest.now) (instant_at at.now) }
    ensures size { unsigned_abs result ≤ 10 ^ 24 }
{
    let climb = climb_at(
        contest.chase.start,
        contest.chase.aim,
        contest.chase.pull,
        contest.chase.hold,
        at,
    );
    times(climb, contest.accel) - times(intruder_at(contest, at), contest.chase.pull)
}

/// Whether the curve is less above the intruder at a time than at another.
pub(crate) fn is_lower(contest: &Contest, at: &Moment, other: &Moment) -> bool
    ensures { result ≡ int_lt
        (race_number (race_in contest.now) (instant_at at.now) *ℤ pos (other.now.den * other.now.den))
        (race_number (race_in contest.now) (instant_at other.now) *ℤ pos (at.now.den * at.now.den)) }
{
    times(number(contest, at), other.den * other.den)
        < times(number(contest, other), at.den * at.den)
}
