//! The time at which a rising curve is nearest the intruder, found without a division.
ghost use Rattle.std.specs.Prelude.{◌≡◌, ◌+◌, ◌*◌, ◌≤◌, pos, ◌<ℤ◌, unsigned_abs};
ghost use Rattle.acas_flight.specs.Border.{IsNearestTime, IsOnTheWay, turn};
ghost use Rattle.acas_areas.specs.View.{border_in, time_at, times_of};

use crate::chase::moment_of;
use acas_areas::{Chase, Moment, Window};
use acas_units::{GREATEST_DELAY, GREATEST_LIMIT, GREATEST_RATE};

// The pull times the time at which the curve is as fast as the intruder.
fn turn_of(chase: &Chase) -> u64
    requires { IsOnTheWay (border_in chase.now) }
    ensures value { pos result ≡ turn (border_in chase.now) }
    ensures size { result ≤ GREATEST_DELAY * GREATEST_LIMIT + 2 * unsigned_abs GREATEST_RATE }
{
    chase.hold * chase.pull + (chase.rate - chase.start) as u64
}

// Where the intruder's rate is one of those on the way: when the curve has it, or the end of the window next to that.
#[tactic(auto, using(acas_flight_windows::proofs::NearestTimes::before_end))]
fn at_turn(chase: &Chase, window: &Window) -> Moment
    requires { IsOnTheWay (border_in chase.now) }
    ensures { IsNearestTime (border_in chase.now) (times_of window.now) (time_at result) }
{
    let from = moment_of(&window.from);
    let to = moment_of(&window.to);
    let turn = turn_of(chase);
    if turn * from.den <= from.num * chase.pull {
        return from;
    }
    if to.num * chase.pull <= turn * to.den {
        return to;
    }
    Moment {
        num: turn,
        den: chase.pull,
    }
}

/// The time in the window at which a rising curve is nearest the intruder, as the number of an end or over the pull.
pub(crate) fn nearest(chase: &Chase, window: &Window) -> Moment
    requires { chase.now.start <ℤ chase.now.aim }
    ensures { IsNearestTime (border_in chase.now) (times_of window.now) (time_at result) }
{
    if chase.rate <= chase.start {
        moment_of(&window.from)
    } else if chase.aim < chase.rate {
        moment_of(&window.to)
    } else {
        at_turn(chase, window)
    }
}
