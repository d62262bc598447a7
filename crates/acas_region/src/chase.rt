//! How far a curve is over an intruder that flies at a steady rate: in whole numbers, over those of a time.
ghost use Rattle.std.specs.Prelude.{◌≡◌, ℕ, ◌*◌, ◌^◌, ◌≤◌, pos, ◌+ℤ◌, ◌-ℤ◌, ◌*ℤ◌, unsigned_abs};
ghost use Rattle.acas_frac.specs.Fraction.{Fraction, IsReduced};
ghost use Rattle.acas_flight.specs.Curves.{held};
ghost use Rattle.acas_flight.specs.Border.{gap_number};
ghost use Rattle.acas_areas.specs.Limits.{IsEnd};
ghost use Rattle.acas_areas.specs.Sizes.{altitude_size};
ghost use Rattle.acas_areas.specs.View.{border_in};

use acas_areas::{Chase, Moment};
use acas_frac::Frac;
use acas_region_curves::numerator;
use acas_units::{GREATEST_CLOSING, GREATEST_DELAY, GREATEST_LIMIT, GREATEST_RATE, WINDOW_SECONDS};

/// The numbers of a window's end, or of another time over as little, which are in lowest terms.
pub fn moment_of(time: &Frac) -> Moment
    requires { IsEnd time.now }
    ensures num { Fraction.num time.now ≡ pos result.num }
    ensures den { Fraction.den time.now ≡ result.den }
    ensures reduced { IsReduced time.now }
{
    Moment {
        num: time.num() as u64,
        den: time.den() as u64,
    }
}

/// A whole number, of the size of an altitude in ticks at most, over a denominator of at most 5000: how many of its parts it is.
pub fn over(value: i64, den: u64) -> i64
    requires value { unsigned_abs value ≤ altitude_size }
    requires den { den ≤ GREATEST_CLOSING }
    ensures value { result ≡ value *ℤ pos den }
    ensures size { (m n : ℕ) → unsigned_abs value ≤ m → den ≤ n → unsigned_abs result ≤ m * n }
{
    value * den as i64
}

// Twice a rate over a time.
fn flown(rate: i64, num: u64) -> i64
    requires rate { unsigned_abs rate ≤ unsigned_abs GREATEST_RATE }
    requires num { num ≤ WINDOW_SECONDS * GREATEST_CLOSING }
    ensures value { result ≡ (pos 2 *ℤ rate) *ℤ pos num }
    ensures size { unsigned_abs result ≤ 2 * unsigned_abs GREATEST_RATE *
        (WINDOW_SECONDS * GREATEST_CLOSING) }
{
    2 * rate * num as i64
}

// The intruder's altitude at a time, times the pull.
fn line(height: i64, rate: i64, pull: u64, num: u64, den: u64) -> i64
    requires height { unsigned_abs height ≤ altitude_size }
    requires rate { unsigned_abs rate ≤ unsigned_abs GREATEST_RATE }
    requires pull { pull ≤ GREATEST_LIMIT }
    requires num { num ≤ WINDOW_SECONDS * GREATEST_CLOSING }
    requires den { den ≤ GREATEST_CLOSING }
    ensures value { result ≡ ((height *ℤ pos den) +ℤ ((pos 2 *ℤ rate) *ℤ pos num)) *ℤ pos (den * pull) }
    ensures size { unsigned_abs result ≤ 10 ^ 18 }
{
    (over(height, den) + flown(rate, num)) * (den * pull) as i64
}

/// The climb at a time, over the square of the time's denominator and the pull, of a flight that holds its start rate, then goes to
/// the aim with the pull. Rates are in ft/min, of at most 10,000 in size, the pull in ft/min per second, of at most 2000, and the hold
/// in seconds, of at most 10.
pub fn climb_at(start: i64, aim: i64, pull: u64, hold: u64, at: &Moment) -> i128
    requires start { unsigned_abs start ≤ unsigned_abs GREATEST_RATE }
    requires aim { unsigned_abs aim ≤ unsigned_abs GREATEST_RATE }
    requires pull { pull ≤ GREATEST_LIMIT }
    requires hold { hold ≤ GREATEST_DELAY }
    ensures value { result ≡ held (start *ℤ pos at.now.den) (aim *ℤ pos at.now.den) pull (hold * at.now.den)
        at.now.num }
    ensures size { unsigned_abs result ≤ 10 ^ 20 }
{
    numerator(
        over(start, at.den),
        over(aim, at.den),
        pull,
        hold * at.den,
        at.num,
    )
}

// A climb less an altitude.
fn less(climb: i128, altitude: i64) -> i128
    requires climb { unsigned_abs climb ≤ 10 ^ 20 }
    requires altitude { unsigned_abs altitude ≤ 10 ^ 18 }
    ensures value { result ≡ climb -ℤ altitude }
    ensures size { unsigned_abs result ≤ 2 * 10 ^ 20 }
{
    climb - i128::from(altitude)
}

/// The curve's climb less the intruder's altitude at a time, over the square of the time's denominator and the pull.
pub(crate) fn gap_number(chase: &Chase, at: &Moment) -> i128
    ensures value { result ≡ gap_number (border_in chase.now) at.now.den at.now.num }
    ensures size { unsigned_abs result ≤ 2 * 10 ^ 20 }
{
    let climb = climb_at(chase.start, chase.aim, chase.pull, chase.hold, at);
    let altitude = line(chase.height, chase.rate, chase.pull, at.num, at.den);
    less(climb, altitude)
}

/// That square times the pull.
pub(crate) fn scale(chase: &Chase, at: &Moment) -> u64
    ensures value { result ≡ at.now.den * at.now.den * chase.now.pull }
    ensures size { result ≤ GREATEST_CLOSING * GREATEST_CLOSING * GREATEST_LIMIT }
{
    at.den * at.den * chase.pull
}
