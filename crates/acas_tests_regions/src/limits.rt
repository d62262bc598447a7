//! Tests of what the curves take. Each fraction is in lowest terms.
ghost use Rattle.std.specs.Prelude.{◌≤◌, ◌⊎◌, IsTrue};
ghost use Rattle.acas_frac.specs.Fraction.{Fraction};
ghost use Rattle.acas_areas.specs.Limits.{AreWhole, IsCurve, IsHeldCurve, IsHold, IsOneAtMostNotWhole, IsPull, IsRate, IsStart, IsTime, IsWhole};

use acas_areas::{HOLD_PARTS, PULL_PARTS, RATE_PARTS, TIME_PARTS};
use acas_frac::Frac;

fn is_whole(value: &Frac) -> bool
    ensures { IsTrue result → IsWhole value.now }
{
    value.den() == 1
}

fn is_rate(value: &Frac) -> bool
    ensures { IsTrue result → IsRate value.now }
{
    let (num, den) = (value.num().unsigned_abs(), value.den());
    den <= i128::from(RATE_PARTS) && num <= 10_000 * den.unsigned_abs()
}

fn is_pull(value: &Frac) -> bool
    ensures { IsTrue result → IsPull value.now }
{
    let (num, den) = (value.num(), value.den());
    den <= i128::from(PULL_PARTS) && den <= num && num <= 2_000 * den
}

fn is_hold(value: &Frac) -> bool
    ensures { IsTrue result → IsHold value.now }
{
    let (num, den) = (value.num(), value.den());
    den <= i128::from(HOLD_PARTS) && 0 <= num && num <= 10 * den
}

fn is_time(value: &Frac) -> bool
    ensures { IsTrue result → IsTime value.now }
{
    let (num, den) = (value.num(), value.den());
    den <= i128::from(TIME_PARTS) && 0 <= num && num <= 600 * den
}

fn is_coarse(value: &Frac) -> bool
    ensures { IsTrue result → Fraction.den value.now ≤ 5000 }
{
    value.den() <= 5_000
}

fn are_whole(v: &Frac, aim: &Frac, pull: &Frac) -> bool
    ensures { IsTrue result → AreWhole v.now aim.now pull.now }
{
    is_whole(v) && is_whole(aim) && is_whole(pull)
}

fn is_one_not_whole(v: &Frac, aim: &Frac, pull: &Frac) -> bool
    ensures { IsTrue result → IsOneAtMostNotWhole v.now aim.now pull.now }
{
    if is_whole(v) {
        is_whole(aim) || is_whole(pull)
    } else {
        is_whole(aim) && is_whole(pull)
    }
}

fn is_fine(v: &Frac, aim: &Frac, pull: &Frac, t: &Frac) -> bool
    ensures { IsTrue result → AreWhole v.now aim.now pull.now
        ⊎ ((Fraction.den t.now ≤ 5000) × IsOneAtMostNotWhole v.now aim.now pull.now) }
{
    are_whole(v, aim, pull) || is_coarse(t) && is_one_not_whole(v, aim, pull)
}

fn is_hold_fine(v: &Frac, aim: &Frac, pull: &Frac, hold: &Frac, t: &Frac) -> bool
    ensures { IsTrue result → IsWhole hold.now
        ⊎ (AreWhole v.now aim.now pull.now × (Fraction.den t.now ≤ 5000)) }
{
    is_whole(hold) || are_whole(v, aim, pull) && is_coarse(t)
}

/// Whether an approach takes the numbers.
pub fn is_curve(v: &Frac, aim: &Frac, pull: &Frac, t: &Frac) -> bool
    ensures { IsTrue result → IsCurve v.now aim.now pull.now t.now }
{
    is_rate(v) && is_rate(aim) && is_pull(pull) && is_time(t) && is_fine(v, aim, pull, t)
}

/// Whether a flight with a hold takes the numbers.
pub fn is_held_curve(v: &Frac, aim: &Frac, pull: &Frac, hold: &Frac, t: &Frac) -> bool
    ensures { IsTrue result → IsHeldCurve v.now aim.now pull.now hold.now t.now }
{
    is_curve(v, aim, pull, t) && is_hold(hold) && is_hold_fine(v, aim, pull, hold, t)
}

/// Whether the lowest and the highest climb take the rate and the time.
pub fn is_start(v: &Frac, t: &Frac) -> bool
    ensures { IsTrue result → IsStart v.now t.now }
{
    is_rate(v) && is_time(t) && (is_whole(v) || is_coarse(t))
}
