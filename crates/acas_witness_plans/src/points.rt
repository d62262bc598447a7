//! The numbers of the passes, as fractions.
ghost use Rattle.std.specs.Prelude.{◌≡◌, ◌*◌, ◌^◌, ◌<◌, ◌≤◌, pos, ◌*ℤ◌, unsigned_abs};
ghost use Rattle.acas_frac.specs.Fraction.{Fraction, IsFrac};
ghost use Rattle.acas_flight.specs.Values.{IsOver};
ghost use Rattle.acas_areas.specs.Passes.{toward};
ghost use Rattle.acas_areas.specs.Limits.{IsEnd, IsHold, IsPull, IsRate, IsTime};
ghost use Rattle.acas_region_curves.specs.Parts.{AreParts};
ghost use Rattle.acas_witness_plans.specs.Plans.{time_toward};

use acas_areas::{PULL_STEPS, RATE_STEPS, TIME_STEPS};
use acas_frac::Frac;
use acas_units::{GREATEST_CLOSING, GREATEST_DELAY, GREATEST_LIMIT, GREATEST_RATE, WINDOW_SECONDS};

/// A number over a denominator.
#[tactic(auto, using(crate::proofs::Lattices::ratio_reduces))]
pub fn ratio(num: i64, den: u64) -> Frac
    requires some { 0 < den }
    requires den { den ≤ 10 ^ 10 }
    requires num { unsigned_abs num ≤ 10 ^ 18 }
    ensures value { Fraction.num result *ℤ pos den ≡ num *ℤ pos (Fraction.den result) }
    ensures lowest { IsFrac result }
{
    Frac::new(i128::from(num), i128::from(den))
}

/// A whole rate in steps.
pub fn rate_steps(rate: i64) -> i64
    requires { unsigned_abs rate ≤ unsigned_abs GREATEST_RATE }
    ensures value { result ≡ pos RATE_STEPS *ℤ rate }
    ensures size { unsigned_abs result ≤ RATE_STEPS * unsigned_abs GREATEST_RATE }
{
    RATE_STEPS as i64 * rate
}

/// A rate of so many steps.
#[tactic(auto, using(crate::proofs::Lattices::rate_of))]
pub fn rate_at(steps: i64) -> Frac
    requires { unsigned_abs steps ≤ RATE_STEPS * unsigned_abs GREATEST_RATE }
    ensures value { Fraction.num result *ℤ pos RATE_STEPS ≡ steps *ℤ pos (Fraction.den result) }
    ensures rate { IsRate result }
{
    ratio(steps, RATE_STEPS)
}

/// A pull of so many steps.
#[tactic(auto, using(crate::proofs::Lattices::pull_of))]
pub fn pull_at(steps: u64) -> Frac
    requires least { PULL_STEPS ≤ steps }
    requires most { steps ≤ GREATEST_LIMIT * PULL_STEPS }
    ensures value { Fraction.num result *ℤ pos PULL_STEPS ≡ pos steps *ℤ pos (Fraction.den result) }
    ensures pull { IsPull result }
{
    ratio(steps as i64, PULL_STEPS)
}

/// A hold of so many steps.
#[tactic(auto, using(crate::proofs::Lattices::hold_of))]
pub fn hold_at(steps: u64) -> Frac
    requires { steps ≤ GREATEST_DELAY * TIME_STEPS }
    ensures value { Fraction.num result *ℤ pos TIME_STEPS ≡ pos steps *ℤ pos (Fraction.den result) }
    ensures hold { IsHold result }
{
    ratio(steps as i64, TIME_STEPS)
}

/// The number further on the way from one to another, or its end.
pub fn place(from: u64, to: u64, number: u64) -> u64
    requires from { from ≤ 10 ^ 18 }
    requires to { to ≤ 10 ^ 18 }
    ensures { result ≡ toward from to number }
{
    if from < to {
        from + number.min(to - from)
    } else {
        from - number.min(from - to)
    }
}

/// The parts of a window's time.
pub fn end_parts(time: &Frac) -> (u64, u64)
    requires { IsEnd time.now }
    ensures { AreParts WINDOW_SECONDS GREATEST_CLOSING time.now result.0 result.1 }
{
    (time.num() as u64, time.den() as u64)
}

// A time of so many steps from a time over a denominator.
#[tactic(auto, using(crate::proofs::Lattices::time_of))]
fn time_at(steps: u64, den: u64) -> Frac
    requires some { 0 < den }
    requires den { den ≤ GREATEST_CLOSING }
    requires most { steps ≤ WINDOW_SECONDS * (TIME_STEPS * den) }
    ensures value { Fraction.num result *ℤ pos (TIME_STEPS * den) ≡ pos steps *ℤ pos (Fraction.den result) }
    ensures time { IsTime result }
{
    ratio(steps as i64, TIME_STEPS * den)
}

/// The time of that number on the way from one time to another, in steps.
pub fn time_place(from: &Frac, to: &Frac, number: u32) -> Frac
    requires from { IsEnd from.now }
    requires to { IsEnd to.now }
    ensures over { let unit = PULL_STEPS * (Fraction.den from.now * Fraction.den to.now) in
        IsOver unit (pos (time_toward from.now to.now number)) result }
    ensures time { IsTime result }
{
    let (a, b) = end_parts(from);
    let (c, d) = end_parts(to);
    let first = TIME_STEPS * a * d;
    let last = TIME_STEPS * c * b;
    let moved = u64::from(number) * (b * d);
    if first < last {
        if first + moved < last {
            time_at(TIME_STEPS * a + u64::from(number) * b, b)
        } else {
            *to
        }
    } else if last + moved < first {
        time_at(TIME_STEPS * a - u64::from(number) * b, b)
    } else {
        *to
    }
}
