//! The response of a flight of the search: the hold, and the segments before and after the bend.
ghost use Rattle.std.specs.Prelude.{◌≡◌, ◌*◌, ◌^◌, ◌<◌, ◌≤◌, pos, ◌-ℤ◌, ◌*ℤ◌, ◌≤ℤ◌, unsigned_abs};
ghost use Rattle.acas_frac.specs.Fraction.{Fraction, IsFrac};
ghost use Rattle.acas_flight.specs.Values.{IsAtMost};
ghost use Rattle.acas_areas.specs.Limits.{IsHold, IsPull, IsRate, IsTime};
ghost use Rattle.acas_witness_plans.specs.Bends.{IsBend, IsDifference};
ghost use Rattle.acas_witness_response.specs.PrintedPlans.{AreSegmentsFor, HoldsFor, IsFineBend, IsLeftAfter, IsSignedPull};

use acas_areas::RATE_PARTS;
use acas_frac::Frac;
use acas_region_curves::{pull_parts, rate_parts};
use acas_rulings::Segment;
use acas_units::{GREATEST_RATE, WINDOW_SECONDS};
use acas_witness_plans::{difference_parts, known, ratio};

// The way from one rate to another, over the product of their denominators.
fn way_of(rate: i64, rate_den: u64, aim: i64, aim_den: u64) -> u64
    requires rate { unsigned_abs rate ≤ unsigned_abs GREATEST_RATE * RATE_PARTS }
    requires rate_den { rate_den ≤ RATE_PARTS }
    requires aim { unsigned_abs aim ≤ unsigned_abs GREATEST_RATE * RATE_PARTS }
    requires aim_den { aim_den ≤ RATE_PARTS }
    ensures value { result ≡ unsigned_abs ((aim *ℤ pos rate_den) -ℤ (rate *ℤ pos aim_den)) }
    ensures size { result ≤ 2 * (unsigned_abs GREATEST_RATE * RATE_PARTS) * RATE_PARTS }
{
    (aim * rate_den as i64 - rate * aim_den as i64).unsigned_abs()
}

// The time in which a pull changes a rate to an aim.
fn bend_of(rate: &Frac, aim: &Frac, pull: &Frac) -> Frac
    requires rate { IsRate rate.now }
    requires aim { IsRate aim.now }
    requires pull { IsPull pull.now }
    ensures bend { IsBend rate.now aim.now pull.now result }
    ensures lowest { IsFrac result }
{
    let (v, m) = rate_parts(rate);
    let (k, n) = rate_parts(aim);
    let (b, d) = pull_parts(pull);
    ratio((way_of(v, m, k, n) * d) as i64, m * n * b)
}

// A time less another that is not above it.
fn difference(time: &Frac, other: &Frac) -> Frac
    requires dens { Fraction.den time.now * Fraction.den other.now ≤ 10 ^ 13 }
    requires order { IsAtMost other.now time.now }
    requires least { pos 0 ≤ℤ Fraction.num other.now }
    requires most { Fraction.num time.now ≤ℤ pos (WINDOW_SECONDS * Fraction.den time.now) }
    ensures difference { IsDifference time.now other.now result }
    ensures lowest { IsFrac result }
{
    let (num, den) = difference_parts(time, other);
    Frac::new(num, den)
}

// The pull, with the sign of the way from a rate to an aim.
fn toward(rate: &Frac, aim: &Frac, pull: &Frac) -> Frac
    requires rate { IsRate rate.now }
    requires aim { IsRate aim.now }
    requires pull { IsPull pull.now }
    ensures { IsSignedPull rate.now aim.now pull.now result }
{
    if rate.is_at_most(aim) {
        *pull
    } else {
        let (num, den) = pull_parts(pull);
        ratio(-(num as i64), den)
    }
}

/// The segments of an approach that lasts a time: none where that is 0; a level one from the aim; one toward the aim where the time
/// does not go past the bend; and otherwise that of the bend, and a level one for the rest.
pub fn segments_of(
    rate: &Frac,
    aim: &Frac,
    pull: &Frac,
    time: &Frac,
) -> (Option<Segment>, Option<Segment>)
    requires rate { IsRate rate.now }
    requires aim { IsRate aim.now }
    requires pull { IsPull pull.now }
    requires least { pos 0 ≤ℤ Fraction.num time.now }
    requires most { Fraction.num time.now ≤ℤ pos (WINDOW_SECONDS * Fraction.den time.now) }
    requires some { 0 < Fraction.den time.now }
    requires dens { IsFineBend rate.now aim.now pull.now time.now }
    ensures { AreSegmentsFor rate.now aim.now pull.now time.now result.0 result.1 }
{
    if time.num() == 0 {
        return (None, None);
    }
    let bend = bend_of(rate, aim, pull);
    if bend.num() == 0 {
        return (
            Some(Segment {
                duration: *time,
                acceleration: Frac::whole(0),
            }),
            None,
        );
    }
    let acceleration = toward(rate, aim, pull);
    if time.is_at_most(&bend) {
        return (
            Some(Segment {
                duration: *time,
                acceleration,
            }),
            None,
        );
    }
    (
        Some(Segment {
            duration: bend,
            acceleration,
        }),
        Some(Segment {
            duration: difference(time, &bend),
            acceleration: Frac::whole(0),
        }),
    )
}

/// The hold of a flight that lasts a time, and the time that is left after it.
pub fn held_part(time: &Frac, hold: &Frac) -> (Option<Frac>, Frac)
    requires time { IsTime time.now }
    requires hold { IsHold hold.now }
    ensures parts { HoldsFor time.now hold.now result.0 }
    ensures rest { IsLeftAfter time.now hold.now result.1 }
    ensures least { pos 0 ≤ℤ Fraction.num result.1 }
    ensures most { Fraction.num result.1 ≤ℤ pos (WINDOW_SECONDS * Fraction.den result.1) }
    ensures some { 0 < Fraction.den result.1 }
    ensures den { Fraction.den result.1 ≤ Fraction.den time.now * Fraction.den hold.now }
{
    if hold.num() == 0 {
        return (None, known(*time));
    }
    if time.num() == 0 {
        return (None, known(*time));
    }
    if time.is_at_most(hold) {
        return (Some(*time), Frac::whole(0));
    }
    (Some(*hold), difference(time, hold))
}
