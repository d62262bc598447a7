//! When a rising curve comes to be as fast as the intruder.
ghost use Rattle.std.specs.Prelude.{◌≡◌, ◌+◌, ◌*◌, ◌<◌, ◌≤◌, pos, ◌+ℤ◌, ◌-ℤ◌, ◌*ℤ◌, ◌≤ℤ◌, int_lt, unsigned_abs};
ghost use Rattle.acas_rulings.specs.Turns.{IsEarlyTurn, IsLateTurn, IsLooked, IsSoonerOrSame, IsTurnTime};
ghost use Rattle.acas_race.specs.View.{instant_at, race_in};

use crate::contest::Contest;
use acas_areas::Moment;
use acas_region::natural;
use acas_units::{GREATEST_DELAY, GREATEST_LIMIT, GREATEST_RATE};

// The turn, or the end of a window next to it.
fn clipped(contest: &Contest, num: u64, den: u64, from: &Moment, to: &Moment) -> Moment
    requires rising { contest.now.chase.start ≤ℤ contest.now.chase.aim }
    requires turn { IsTurnTime (race_in contest.now) (record { num = num; den = den }) }
    requires some { 0 < den }
    requires den { den ≤ GREATEST_LIMIT }
    requires num { num ≤ GREATEST_DELAY * GREATEST_LIMIT + 2 * unsigned_abs GREATEST_RATE }
    requires order { IsSoonerOrSame (instant_at from.now) (instant_at to.now) }
    ensures looked { IsLooked (race_in contest.now) (instant_at from.now) (instant_at to.now)
        (instant_at result) }
    ensures after { IsSoonerOrSame (instant_at from.now) (instant_at result) }
    ensures before { IsSoonerOrSame (instant_at result) (instant_at to.now) }
{
    if num * from.den <= from.num * den {
        return *from;
    }
    if to.num * den <= num * to.den {
        return *to;
    }
    Moment { num, den }
}

// A rate, or the difference of two, times an acceleration.
fn scaled(rate: i64, by: u64) -> i64
    requires rate { unsigned_abs rate ≤ 2 * unsigned_abs GREATEST_RATE }
    requires by { by ≤ GREATEST_LIMIT }
    ensures value { result ≡ rate *ℤ pos by }
    ensures size { unsigned_abs result ≤ 2 * unsigned_abs GREATEST_RATE * GREATEST_LIMIT }
{
    rate * by as i64
}

// The rate that a hold would have gained, from a start rate to another.
fn reach(start: i64, rate: i64, held: u64) -> i64
    requires start { unsigned_abs start ≤ unsigned_abs GREATEST_RATE }
    requires rate { unsigned_abs rate ≤ unsigned_abs GREATEST_RATE }
    requires held { held ≤ GREATEST_DELAY * GREATEST_LIMIT }
    ensures value { result ≡ (rate -ℤ start) +ℤ pos held }
    ensures size { unsigned_abs result ≤ GREATEST_DELAY * GREATEST_LIMIT + 2 * unsigned_abs GREATEST_RATE }
{
    rate - start + held as i64
}

// Whether the intruder is at its goal before the curve is as fast.
fn is_late(contest: &Contest, held: u64) -> bool
    requires held { held ≡ contest.now.chase.hold * contest.now.chase.pull }
    requires size { held ≤ GREATEST_DELAY * GREATEST_LIMIT }
    ensures { result ≡ int_lt
        (contest.now.chase.start *ℤ pos contest.now.accel
        +ℤ (contest.now.goal -ℤ contest.now.chase.rate) *ℤ pos contest.now.chase.pull)
        (contest.now.goal *ℤ pos contest.now.accel
        +ℤ pos (contest.now.chase.hold * contest.now.chase.pull * contest.now.accel)) }
{
    let own = scaled(contest.chase.start, contest.accel)
        + scaled(contest.goal - contest.chase.rate, contest.chase.pull);
    let other = scaled(contest.goal, contest.accel) + (held * contest.accel) as i64;
    own < other
}

// Where the intruder is at its goal before.
fn late_turn(contest: &Contest, held: u64, from: &Moment, to: &Moment) -> Moment
    requires rising { contest.now.chase.start ≤ℤ contest.now.chase.aim }
    requires held { held ≡ contest.now.chase.hold * contest.now.chase.pull }
    requires size { held ≤ GREATEST_DELAY * GREATEST_LIMIT }
    requires late { IsLateTurn (race_in contest.now) }
    requires order { IsSoonerOrSame (instant_at from.now) (instant_at to.now) }
    ensures looked { IsLooked (race_in contest.now) (instant_at from.now) (instant_at to.now)
        (instant_at result) }
    ensures after { IsSoonerOrSame (instant_at from.now) (instant_at result) }
    ensures before { IsSoonerOrSame (instant_at result) (instant_at to.now) }
{
    let num = natural(reach(contest.chase.start, contest.goal, held));
    clipped(contest, num, contest.chase.pull, from, to)
}

// Where it is not yet, and the curve gains on it.
fn early_turn(contest: &Contest, held: u64, from: &Moment, to: &Moment) -> Moment
    requires rising { contest.now.chase.start ≤ℤ contest.now.chase.aim }
    requires held { held ≡ contest.now.chase.hold * contest.now.chase.pull }
    requires size { held ≤ GREATEST_DELAY * GREATEST_LIMIT }
    requires early { IsEarlyTurn (race_in contest.now) }
    requires gains { contest.now.accel < contest.now.chase.pull }
    requires order { IsSoonerOrSame (instant_at from.now) (instant_at to.now) }
    ensures looked { IsLooked (race_in contest.now) (instant_at from.now) (instant_at to.now)
        (instant_at result) }
    ensures after { IsSoonerOrSame (instant_at from.now) (instant_at result) }
    ensures before { IsSoonerOrSame (instant_at result) (instant_at to.now) }
{
    let reach = reach(contest.chase.start, contest.chase.rate, held);
    if reach < 0 {
        return *from;
    }
    clipped(
        contest,
        natural(reach),
        contest.chase.pull - contest.accel,
        from,
        to,
    )
}

/// A time of the window that is the turn of a rising curve, if that is within.
pub(crate) fn turn_within(contest: &Contest, from: &Moment, to: &Moment) -> Moment
    requires rising { contest.now.chase.start ≤ℤ contest.now.chase.aim }
    requires order { IsSoonerOrSame (instant_at from.now) (instant_at to.now) }
    ensures looked { IsLooked (race_in contest.now) (instant_at from.now) (instant_at to.now)
        (instant_at result) }
    ensures after { IsSoonerOrSame (instant_at from.now) (instant_at result) }
    ensures before { IsSoonerOrSame (instant_at result) (instant_at to.now) }
{
    let held = contest.chase.hold * contest.chase.pull;
    if is_late(contest, held) {
        return late_turn(contest, held, from, to);
    }
    if contest.chase.pull <= contest.accel {
        return *from;
    }
    early_turn(contest, held, from, to)
}
