//! The curve of an approach, as an exact fraction.
ghost use Rattle.std.specs.Prelude.{◌≡◌, ◌+◌, ◌-◌, ◌*◌, ◌^◌, ◌<◌, ◌≤◌, pos, ◌-ℤ◌, ◌*ℤ◌, unsigned_abs, min};
ghost use Rattle.acas_frac.specs.Fraction.{Fraction, IsFrac};
ghost use Rattle.acas_flight.specs.Curves.{held};
ghost use Rattle.acas_flight.specs.Values.{IsApproach, IsHeld, all_lost, less_or_more};
ghost use Rattle.acas_areas.specs.Limits.{IsCurve, IsHeldCurve, IsHold, IsPull, IsRate, IsTime};
ghost use Rattle.acas_region_curves.specs.Parts.{AreParts};
ghost use Rattle.acas_region_curves.specs.Ratios.{IsRatio};
ghost use Rattle.acas_region_curves.specs.Scaling.{IsScaling};
ghost use Rattle.acas_areas.specs.Sizes.{gain_size, rate_size, way_size};

use crate::ratio::Ratio;
use acas_areas::{HOLD_PARTS, PULL_PARTS, RATE_PARTS, TIME_PARTS};
use acas_frac::Frac;
use acas_units::{GREATEST_DELAY, GREATEST_LIMIT, GREATEST_RATE, WINDOW_SECONDS};

/// A rate's parts.
pub fn rate_parts(rate: &Frac) -> (i64, u64)
    requires { IsRate rate.now }
    ensures num { Fraction.num rate.now ≡ result.0 }
    ensures den { Fraction.den rate.now ≡ result.1 }
    ensures num_size { unsigned_abs result.0 ≤ unsigned_abs GREATEST_RATE * RATE_PARTS }
    ensures den_size { result.1 ≤ RATE_PARTS }
    ensures some { 0 < result.1 }
{
    (rate.num() as i64, rate.den() as u64)
}

/// A pull's parts.
pub fn pull_parts(pull: &Frac) -> (u64, u64)
    requires { IsPull pull.now }
    ensures parts { AreParts GREATEST_LIMIT PULL_PARTS pull.now result.0 result.1 }
    ensures some { 0 < result.0 }
{
    (pull.num() as u64, pull.den() as u64)
}

// A hold's parts.
fn hold_parts(hold: &Frac) -> (u64, u64)
    requires { IsHold hold.now }
    ensures { AreParts GREATEST_DELAY HOLD_PARTS hold.now result.0 result.1 }
{
    (hold.num() as u64, hold.den() as u64)
}

/// A time's parts.
pub fn time_parts(time: &Frac) -> (u64, u64)
    requires { IsTime time.now }
    ensures { AreParts WINDOW_SECONDS TIME_PARTS time.now result.0 result.1 }
{
    (time.num() as u64, time.den() as u64)
}

// What an approach loses against the aim's rate, times the pull.
fn lost(way: u64, kept: u64, gain: u64) -> u128
    requires way { way ≤ way_size }
    requires kept { kept ≤ gain_size }
    ensures value { result ≡ all_lost way kept gain }
    ensures size { result ≤ 10 ^ 30 }
{
    let way = u128::from(way);
    let rest = way.saturating_sub(u128::from(gain));
    2 * way * u128::from(kept) + (way * way - rest * rest)
}

// The climb at the aim's rate, times the pull.
fn straight(aim: i64, time: u64, pull: u64) -> i128
    requires aim { unsigned_abs aim ≤ rate_size }
    requires flown { pull * time ≤ gain_size }
    ensures value { result ≡ ((pos 2 *ℤ aim) *ℤ pos time) *ℤ pos pull }
    ensures size { unsigned_abs result ≤ 10 ^ 30 }
{
    i128::from(2 * aim) * i128::from(pull * time)
}

// The straight climb, less the loss of a rising approach, or more by that of a falling one.
fn with_loss(rising: bool, straight: i128, loss: u128) -> i128
    requires straight { unsigned_abs straight ≤ 10 ^ 30 }
    requires loss { loss ≤ 10 ^ 30 }
    ensures value { result ≡ less_or_more rising straight loss }
    ensures size { unsigned_abs result ≤ 2 * 10 ^ 30 }
{
    let loss = loss as i128;
    if rising {
        straight - loss
    } else {
        straight + loss
    }
}

// What is lost on the way from the start to the aim.
fn loss_of(start: i64, aim: i64, pull: u64, hold: u64, time: u64) -> u128
    requires start { unsigned_abs start ≤ rate_size }
    requires aim { unsigned_abs aim ≤ rate_size }
    requires flown { pull * time ≤ gain_size }
    ensures value { result ≡ all_lost (unsigned_abs (aim -ℤ start)) (pull * min time hold)
        (pull * (time - hold)) }
    ensures size { result ≤ 10 ^ 30 }
{
    let way = (aim - start).unsigned_abs();
    let kept = pull * time.min(hold);
    let gain = pull * time.saturating_sub(hold);
    lost(way, kept, gain)
}

/// The curve over common denominators, times its pull.
pub fn numerator(start: i64, aim: i64, pull: u64, hold: u64, time: u64) -> i128
    requires start { unsigned_abs start ≤ rate_size }
    requires aim { unsigned_abs aim ≤ rate_size }
    requires flown { pull * time ≤ gain_size }
    ensures value { result ≡ held start aim pull hold time }
    ensures size { unsigned_abs result ≤ 2 * 10 ^ 30 }
{
    let loss = loss_of(start, aim, pull, hold, time);
    with_loss(start <= aim, straight(aim, time, pull), loss)
}

// The numbers of a curve over common denominators, and the denominator of its value.
#[derive(Clone, Copy)]
struct Scaled {
    start: i64,
    aim: i64,
    pull: u64,
    hold: u64,
    time: u64,
    den: u128,
}

// A rate over the denominators of the other and of all else.
fn start_of(rate: i64, other: u64, shared: u64) -> i64
    requires rate { unsigned_abs rate ≤ unsigned_abs GREATEST_RATE * RATE_PARTS }
    requires other { other ≤ RATE_PARTS }
    requires shared { shared ≤ PULL_PARTS * (TIME_PARTS * HOLD_PARTS) }
    ensures value { result ≡ rate *ℤ pos (other * shared) }
    ensures size { unsigned_abs result ≤ 10 ^ 18 }
{
    rate * (other * shared) as i64
}

// The denominator of a curve's value, over its pull.
fn den_of(rates: u64, pull_den: u64, times: u64, pull: u64) -> u128
    requires rates { rates ≤ RATE_PARTS * RATE_PARTS }
    requires pull_den { pull_den ≤ PULL_PARTS }
    requires times { times ≤ TIME_PARTS * HOLD_PARTS }
    requires pull { pull ≤ GREATEST_LIMIT * PULL_PARTS * (RATE_PARTS * RATE_PARTS) }
    ensures { result ≡ rates * pull_den * times * times * pull }
{
    let accelerations = u128::from(rates * pull_den);
    let times = u128::from(times);
    accelerations * times * times * u128::from(pull)
}

// The numbers of a curve over the denominators of all that it takes.
fn over_common(v: &Frac, aim: &Frac, pull: &Frac, hold: &Frac, t: &Frac) -> Scaled
    requires { IsHeldCurve v.now aim.now pull.now hold.now t.now }
    ensures { IsScaling v.now aim.now pull.now hold.now t.now result.start result.aim result.pull result.hold
        result.time result.den }
{
    let (start, start_den) = rate_parts(v);
    let (end, end_den) = rate_parts(aim);
    let (force, force_den) = pull_parts(pull);
    let (kept, kept_den) = hold_parts(hold);
    let (time, time_den) = time_parts(t);
    let times = time_den * kept_den;
    let shared = force_den * times;
    let rates = start_den * end_den;
    let pull = force * rates;
    Scaled {
        start: start_of(start, end_den, shared),
        aim: start_of(end, start_den, shared),
        pull,
        hold: kept * time_den,
        time: time * kept_den,
        den: den_of(rates, force_den, times, pull),
    }
}

/// The climb in the time t, in ticks, of a flight that holds the rate v for the time `hold`, then accelerates toward the aim with
/// the pull until the aim is reached, and then holds the aim. Rates are in ft/min, the pull in ft/min per second, times in seconds.
/// Rates are at most 10,000 in size and over 8 at most; the pull is from 1 to 2000 and over 2048 at most; the time is from 0 to 600
/// and over 1,280,000 at most; the hold is from 0 to 10 and over 256 at most. The rates and the pull are whole, or the time is over
/// 5000 at most and at most one of the three is not whole. A hold that is not whole asks for both.
pub fn held(v: &Frac, aim: &Frac, pull: &Frac, hold: &Frac, t: &Frac) -> Frac
    requires { IsHeldCurve v.now aim.now pull.now hold.now t.now }
    ensures climb { IsHeld v.now aim.now pull.now hold.now t.now result }
    ensures lowest { IsFrac result }
{
    let s = over_common(v, aim, pull, hold, t);
    Frac::new(
        numerator(s.start, s.aim, s.pull, s.hold, s.time),
        s.den as i128,
    )
}

/// The same climb as it was formed, for a flight that is only compared: it need not be in lowest terms.
pub fn held_ratio(v: &Frac, aim: &Frac, pull: &Frac, hold: &Frac, t: &Frac) -> Ratio
    requires { IsHeldCurve v.now aim.now pull.now hold.now t.now }
    ensures climb { IsHeld v.now aim.now pull.now hold.now t.now result }
    ensures bounds { IsRatio result }
{
    let s = over_common(v, aim, pull, hold, t);
    Ratio::new(
        numerator(s.start, s.aim, s.pull, s.hold, s.time),
        s.den as u64,
    )
}

/// The climb in the time t, in ticks, of an approach to the aim that begins at once. Its conditions are those of a flight with no
/// hold.
pub fn approach(v: &Frac, aim: &Frac, pull: &Frac, t: &Frac) -> Frac
    requires { IsCurve v.now aim.now pull.now t.now }
    ensures climb { IsApproach v.now aim.now pull.now t.now result }
    ensures lowest { IsFrac result }
{
    held(v, aim, pull, &Frac::whole(0), t)
}
