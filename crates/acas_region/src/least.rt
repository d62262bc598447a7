//! The least gap between a curve and an intruder that flies at a steady rate, as an exact fraction.
ghost use Rattle.std.specs.Prelude.{◌≡◌, ◌^◌, ◌<◌, ◌≤◌, pos, ◌*◌, ◌*ℤ◌, ◌<ℤ◌, ◌≤ℤ◌, unsigned_abs};
ghost use Rattle.acas_frac.specs.Fraction.{Fraction, IsFrac, IsReduced};
ghost use Rattle.acas_flight.specs.Border.{IsGapAt, IsLeastGap};
ghost use Rattle.acas_areas.specs.Limits.{IsEnd};
ghost use Rattle.acas_areas.specs.View.{border_in, times_of};

use crate::chase::{gap_number, moment_of, scale};
use crate::nearest::nearest;
use crate::window::time_of;
use acas_areas::{Chase, Extreme, Window};
use acas_frac::Frac;
use acas_units::{GREATEST_CLOSING, GREATEST_LIMIT};

// A gap's number over its denominator.
#[tactic(auto, using(acas_region_curves::proofs::Products::small_reduces))]
fn quotient(num: i128, den: u64) -> Frac
    requires num { unsigned_abs num ≤ 2 * 10 ^ 20 }
    requires some { 0 < den }
    requires den { den ≤ GREATEST_CLOSING * GREATEST_CLOSING * GREATEST_LIMIT }
    ensures value { Fraction.num result *ℤ pos den ≡ num *ℤ pos (Fraction.den result) }
    ensures lowest { IsFrac result }
{
    Frac::new(num, i128::from(den))
}

// The gap at a time.
fn gap(chase: &Chase, time: &Frac) -> Frac
    requires { IsEnd time.now }
    ensures value { IsGapAt (border_in chase.now) time.now result }
    ensures lowest { IsFrac result }
    ensures reduced { IsReduced time.now }
{
    let at = moment_of(time);
    quotient(gap_number(chase, &at), scale(chase, &at))
}

// The least gap of a curve that does not rise: at an end.
fn at_ends(chase: &Chase, window: &Window) -> Extreme
    requires { chase.now.aim ≤ℤ chase.now.start }
    ensures least { IsLeastGap (border_in chase.now) (times_of window.now) result.time result.value }
    ensures end { IsEnd result.time }
    ensures reduced { IsReduced result.time }
    ensures lowest { IsFrac result.value }
{
    let first = gap(chase, &window.from);
    let last = gap(chase, &window.to);
    if first.is_at_most(&last) {
        Extreme {
            time: window.from,
            value: first,
        }
    } else {
        Extreme {
            time: window.to,
            value: last,
        }
    }
}

// The least gap of a rising curve.
fn at_nearest(chase: &Chase, window: &Window) -> Extreme
    requires { chase.now.start <ℤ chase.now.aim }
    ensures least { IsLeastGap (border_in chase.now) (times_of window.now) result.time result.value }
    ensures end { IsEnd result.time }
    ensures reduced { IsReduced result.time }
    ensures lowest { IsFrac result.value }
{
    let at = nearest(chase, window);
    let time = time_of(at.num, at.den);
    Extreme {
        time,
        value: gap(chase, &time),
    }
}

/// The least gap in the window, at its earliest time.
pub(crate) fn least(chase: &Chase, window: &Window) -> Extreme
    ensures least { IsLeastGap (border_in chase.now) (times_of window.now) result.time result.value }
    ensures end { IsEnd result.time }
    ensures reduced { IsReduced result.time }
    ensures lowest { IsFrac result.value }
{
    if chase.start < chase.aim {
        at_nearest(chase, window)
    } else {
        at_ends(chase, window)
    }
}
