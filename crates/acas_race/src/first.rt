//! The first time, from one to another, at which a curve is nearest the intruder.
ghost use Rattle.acas_rulings.specs.Least.{IsFirstLeastTime};
ghost use Rattle.acas_rulings.specs.Turns.{IsFirstOf, IsLooked, IsSoonerOrSame, fraction_of, times_of};
ghost use Rattle.acas_race.specs.View.{instant_at, race_in};

use crate::contest::Contest;
use crate::number::is_lower;
use crate::turn::turn_within;
use acas_areas::Moment;

// The first of three times, in their order, at which the curve is least above the intruder.
fn first_of(contest: &Contest, from: &Moment, turn: &Moment, to: &Moment) -> Moment
    ensures { IsFirstOf (race_in contest.now) (instant_at from.now) (instant_at turn.now) (instant_at to.now)
        (instant_at result) }
{
    if is_lower(contest, turn, from) {
        if is_lower(contest, to, turn) {
            *to
        } else {
            *turn
        }
    } else if is_lower(contest, to, from) {
        *to
    } else {
        *from
    }
}

// A time to look at besides the two ends.
fn place(contest: &Contest, from: &Moment, to: &Moment) -> Moment
    requires order { IsSoonerOrSame (instant_at from.now) (instant_at to.now) }
    ensures looked { IsLooked (race_in contest.now) (instant_at from.now) (instant_at to.now)
        (instant_at result) }
    ensures after { IsSoonerOrSame (instant_at from.now) (instant_at result) }
    ensures before { IsSoonerOrSame (instant_at result) (instant_at to.now) }
{
    if contest.chase.start < contest.chase.aim {
        turn_within(contest, from, to)
    } else {
        *from
    }
}

/// The first time, from one to another, at which the curve is least above the intruder.
pub(crate) fn first_least(contest: &Contest, from: &Moment, to: &Moment) -> Moment
    requires order { IsSoonerOrSame (instant_at from.now) (instant_at to.now) }
    ensures { IsFirstLeastTime (race_in contest.now) (times_of (instant_at from.now) (instant_at to.now))
        (fraction_of (instant_at result)) }
{
    let turn = place(contest, from, to);
    first_of(contest, from, &turn, to)
}
