//! What an advisory of a model asks of a pilot, and the lowest and highest climbs under it.
ghost use Rattle.std.specs.Prelude.{◌≡◌, ◌<◌, ◌≤◌, pos, ◌*ℤ◌, unsigned_abs, int_lt, if◌then◌else◌};
ghost use Rattle.acas_frac.specs.Fraction.{Fraction, IsFrac, whole_of};
ghost use Rattle.acas_flight.specs.Response.{demand_of};
ghost use Rattle.acas_flight.specs.Values.{IsHeld, IsHighestClimb, IsLowestClimb};
ghost use Rattle.acas_areas.specs.Limits.{IsRate, IsStart};
ghost use Rattle.acas_areas.specs.View.{demand_in};

use acas_areas::Asked;
use acas_base::Model;
use acas_frac::Frac;
use acas_region_curves::{held, rate_parts};
use acas_units::{GREATEST_DELAY, GREATEST_LIMIT, GREATEST_RATE};

/// What the advisory of a number asks.
pub fn asked_by(model: &Model, advisory: u8) -> Asked
    requires { advisory < model.now.grid.advisories }
    ensures { demand_in result ≡ demand_of model.now advisory }
{
    let _ = model.grid();
    let interval = model.advisory(advisory);
    Asked {
        lo: interval.lo,
        hi: interval.hi,
        pull: model.pull() as u64,
        limit: model.limit() as u64,
        delay: model.delay() as u64,
    }
}

// A curve at a whole aim, pull and hold.
fn toward(v: &Frac, aim: i64, pull: u64, hold: u64, t: &Frac) -> Frac
    requires aim { unsigned_abs aim ≤ unsigned_abs GREATEST_RATE }
    requires some { 0 < pull }
    requires pull { pull ≤ GREATEST_LIMIT }
    requires hold { hold ≤ GREATEST_DELAY }
    requires start { IsStart v.now t.now }
    ensures climb { IsHeld v.now (whole_of aim) (whole_of (pos pull)) (whole_of (pos hold)) t.now result }
    ensures lowest { IsFrac result }
{
    held(
        v,
        &Frac::whole(aim),
        &Frac::whole(pull as i64),
        &Frac::whole(hold as i64),
        t,
    )
}

// The climb toward an aim, with the pull and after the delay where the start rate is past it, and else with the limit and at once.
fn climb_to(asked: &Asked, aim: i64, is_past: bool, v: &Frac, t: &Frac) -> Frac
    requires aim { unsigned_abs aim ≤ unsigned_abs GREATEST_RATE }
    requires start { IsStart v.now t.now }
    ensures climb { let a = asked.now in let pull = if is_past then a.pull else a.limit in let hold = if is_past then a.delay else 0 in
        IsHeld v.now (whole_of aim) (whole_of (pos pull)) (whole_of (pos hold)) t.now result }
    ensures lowest { IsFrac result }
{
    if is_past {
        toward(v, aim, asked.pull, asked.delay, t)
    } else {
        toward(v, aim, asked.limit, 0, t)
    }
}

// Whether a rate is under a whole number.
fn is_under(rate: &Frac, bound: i64) -> bool
    requires rate { IsRate rate.now }
    requires bound { unsigned_abs bound ≤ unsigned_abs GREATEST_RATE }
    ensures { result ≡ int_lt (Fraction.num rate.now) (bound *ℤ pos (Fraction.den rate.now)) }
{
    let (num, den) = rate_parts(rate);
    num < bound * den as i64
}

// Whether a rate is over a whole number.
fn is_over(rate: &Frac, bound: i64) -> bool
    requires rate { IsRate rate.now }
    requires bound { unsigned_abs bound ≤ unsigned_abs GREATEST_RATE }
    ensures { result ≡ int_lt (bound *ℤ pos (Fraction.den rate.now)) (Fraction.num rate.now) }
{
    let (num, den) = rate_parts(rate);
    bound * (den as i64) < num
}

// The least climb under what an advisory asks.
fn lowest_of(asked: &Asked, v: &Frac, t: &Frac) -> Frac
    requires { IsStart v.now t.now }
    ensures climb { IsLowestClimb (demand_in asked.now) v.now t.now result }
    ensures lowest { IsFrac result }
{
    climb_to(asked, asked.lo, is_under(v, asked.lo), v, t)
}

// The greatest climb under it.
fn highest_of(asked: &Asked, v: &Frac, t: &Frac) -> Frac
    requires { IsStart v.now t.now }
    ensures climb { IsHighestClimb (demand_in asked.now) v.now t.now result }
    ensures lowest { IsFrac result }
{
    climb_to(asked, asked.hi, is_over(v, asked.hi), v, t)
}

/// The least climb in the time t, in ticks, of a flight from the rate v that meets the advisory: toward lo, with the pull and after
/// the delay from below lo, and else with the limit and at once. The rate is in ft/min, of at most 10,000 in size and over 8 at most;
/// the time is in seconds, from 0 to 600 and over 1,280,000 at most; the rate is whole, or the time is over 5000 at most.
pub fn lowest(model: &Model, advisory: u8, v: &Frac, t: &Frac) -> Frac
    requires advisory { advisory < model.now.grid.advisories }
    requires start { IsStart v.now t.now }
    ensures climb { IsLowestClimb (demand_of model.now advisory) v.now t.now result }
    ensures lowest { IsFrac result }
{
    lowest_of(&asked_by(model, advisory), v, t)
}

/// The greatest climb in the time t, in ticks, under the same conditions: toward hi, with the pull and after the delay from above
/// hi, and else with the limit and at once.
pub fn highest(model: &Model, advisory: u8, v: &Frac, t: &Frac) -> Frac
    requires advisory { advisory < model.now.grid.advisories }
    requires start { IsStart v.now t.now }
    ensures climb { IsHighestClimb (demand_of model.now advisory) v.now t.now result }
    ensures lowest { IsFrac result }
{
    highest_of(&asked_by(model, advisory), v, t)
}
