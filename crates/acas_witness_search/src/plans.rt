//! The flights of the passes of a survey.
ghost use Rattle.std.specs.Prelude.{◌≡◌, ◌*◌, ◌<◌, ◌≤◌, pos, ◌*ℤ◌, ◌≤ℤ◌, unsigned_abs, int_lt, if◌then◌else◌};
ghost use Rattle.acas_frac.specs.Fraction.{whole_of};
ghost use Rattle.acas_flight.specs.Curves.{low_hold, low_pull};
ghost use Rattle.acas_areas.specs.Passes.{falling, rising};
ghost use Rattle.acas_areas.specs.Search.{after_altitude, aim_pass, altitude_pass, hold_pass, intruder_pass, low_flight, own_pass, pull_pass, time_pass, unit};
ghost use Rattle.acas_areas.specs.Limits.{IsHold, IsPull, IsRate, IsWhole};
ghost use Rattle.acas_witness_plans.specs.Plans.{CanBeFlown, IsPlanOf, IsWholePlan};
ghost use Rattle.acas_witness_search.specs.Surveys.{IsHighPlan, IsPointOf, asked_in, search_of};

use crate::survey::Survey;
use acas_areas::{PULL_STEPS, RATE_STEPS, TIME_STEPS};
use acas_frac::Frac;
use acas_units::{GREATEST_DELAY, GREATEST_LIMIT, GREATEST_RATE};
use acas_witness_plans::{Plan, hold_at, place, pull_at, rate_at, rate_steps, time_place};

// A whole rate.
fn whole_rate(value: i64) -> Frac
    requires { unsigned_abs value ≤ unsigned_abs GREATEST_RATE }
    ensures same { result ≡ whole_of value }
    ensures rate { IsRate result }
{
    Frac::whole(value)
}

// A whole pull.
fn whole_pull(value: u64) -> Frac
    requires some { 0 < value }
    requires most { value ≤ GREATEST_LIMIT }
    ensures same { result ≡ whole_of (pos value) }
    ensures pull { IsPull result }
{
    Frac::whole(value as i64)
}

// A whole hold.
fn whole_hold(value: u64) -> Frac
    requires { value ≤ GREATEST_DELAY }
    ensures same { result ≡ whole_of (pos value) }
    ensures hold { IsHold result }
{
    Frac::whole(value as i64)
}

/// The number further up, or the end. Neither end is above ten million in size.
pub fn rising_place(from: i64, to: i64, number: u32) -> i64
    requires from { unsigned_abs from ≤ 10000000 }
    requires to { unsigned_abs to ≤ 10000000 }
    requires order { from ≤ℤ to }
    ensures { result ≡ rising from to number }
{
    (from + i64::from(number)).min(to)
}

/// The number further down, or the end. Neither end is above ten million in size.
pub fn falling_place(from: i64, to: i64, number: u32) -> i64
    requires from { unsigned_abs from ≤ 10000000 }
    requires to { unsigned_abs to ≤ 10000000 }
    requires order { to ≤ℤ from }
    ensures { result ≡ falling from to number }
{
    let moved = from - i64::from(number);
    if moved < to { to } else { moved }
}

impl Survey {
    /// The pull of the low flight.
    pub(crate) fn low_pull(&self) -> u64
        ensures value { result ≡ low_pull (asked_in self.now) self.now.area.v0.least }
        ensures some { 0 < result }
        ensures most { result ≤ GREATEST_LIMIT }
    {
        if self.area.v0.least < self.lo {
            self.pull
        } else {
            self.limit
        }
    }

    /// The hold of the low flight.
    pub(crate) fn low_hold(&self) -> u64
        ensures value { result ≡ low_hold (asked_in self.now) self.now.area.v0.least }
        ensures most { result ≤ GREATEST_DELAY }
    {
        if self.area.v0.least < self.lo {
            self.delay
        } else {
            0
        }
    }

    /// The pull of the high flight from a rate of so many steps.
    pub(crate) fn high_pull(&self, rate: i64) -> u64
        requires { unsigned_abs rate ≤ RATE_STEPS * unsigned_abs GREATEST_RATE }
        ensures value { result
            ≡ (if int_lt (pos RATE_STEPS *ℤ self.now.hi) rate then self.now.pull else self.now.limit) }
        ensures some { 0 < result }
        ensures most { result ≤ GREATEST_LIMIT }
    {
        if rate_steps(self.hi) < rate {
            self.pull
        } else {
            self.limit
        }
    }

    /// The hold of the high flight from a rate of so many steps.
    pub(crate) fn high_hold(&self, rate: i64) -> u64
        requires { unsigned_abs rate ≤ RATE_STEPS * unsigned_abs GREATEST_RATE }
        ensures value { result ≡ (if int_lt (pos RATE_STEPS *ℤ self.now.hi) rate then self.now.delay else 0) }
        ensures most { result ≤ GREATEST_DELAY }
    {
        if rate_steps(self.hi) < rate {
            self.delay
        } else {
            0
        }
    }

    /// The low flight.
    pub fn low_plan(&self) -> Plan
        ensures point { IsPlanOf (unit (search_of self.now)) (low_flight (search_of self.now)) result }
        ensures flown { CanBeFlown result }
        ensures whole { IsWholePlan result }
    {
        Plan {
            time: self.low,
            altitude: self.area.h.greatest,
            own: whole_rate(self.area.v0.least),
            intruder: whole_rate(self.area.v1.greatest),
            aim: whole_rate(self.lo),
            pull: whole_pull(self.low_pull()),
            hold: whole_hold(self.low_hold()),
        }
    }

    /// The high flight from a rate of so many steps.
    pub fn plan_from(&self, rate: i64) -> Plan
        requires { unsigned_abs rate ≤ RATE_STEPS * unsigned_abs GREATEST_RATE }
        ensures point { IsHighPlan self.now rate result }
        ensures flown { CanBeFlown result }
        ensures time { result.time ≡ self.now.high }
        ensures aim { IsWhole result.aim }
        ensures pull { IsWhole result.pull }
    {
        Plan {
            time: self.high,
            altitude: self.area.h.least,
            own: rate_at(rate),
            intruder: whole_rate(self.area.v1.least),
            aim: whole_rate(self.hi),
            pull: whole_pull(self.high_pull(rate)),
            hold: whole_hold(self.high_hold(rate)),
        }
    }

    /// The flight of that number of the pass over the time.
    pub(crate) fn at_time(&self, number: u32) -> Plan
        ensures point { IsPointOf self.now time_pass number result }
        ensures flown { CanBeFlown result }
    {
        Plan {
            time: time_place(&self.low, &self.high, number),
            ..self.low_plan()
        }
    }

    /// The flight of that number of the pass over the altitude.
    pub(crate) fn at_altitude(&self, number: u32) -> Plan
        ensures point { IsPointOf self.now altitude_pass number result }
        ensures flown { CanBeFlown result }
    {
        Plan {
            time: self.high,
            altitude: falling_place(self.area.h.greatest, self.area.h.least, number),
            ..self.low_plan()
        }
    }

    // The flight at which the pass over the altitude ends.
    fn after_altitude(&self) -> Plan
        ensures point { IsPlanOf (unit (search_of self.now)) (after_altitude (search_of self.now)) result }
        ensures time { result.time ≡ self.now.high }
        ensures flown { CanBeFlown result }
        ensures whole { IsWholePlan result }
    {
        Plan {
            time: self.high,
            altitude: self.area.h.least,
            ..self.low_plan()
        }
    }

    /// The flight of that number of the pass over the intruder's rate.
    pub(crate) fn at_intruder(&self, number: u32) -> Plan
        ensures point { IsPointOf self.now intruder_pass number result }
        ensures flown { CanBeFlown result }
    {
        Plan {
            intruder: rate_at(falling_place(
                rate_steps(self.area.v1.greatest),
                rate_steps(self.area.v1.least),
                number,
            )),
            ..self.after_altitude()
        }
    }

    /// The flight of that number of the pass over the aim.
    pub(crate) fn at_aim(&self, number: u32) -> Plan
        ensures point { IsPointOf self.now aim_pass number result }
        ensures flown { CanBeFlown result }
    {
        Plan {
            intruder: whole_rate(self.area.v1.least),
            aim: rate_at(rising_place(rate_steps(self.lo), rate_steps(self.hi), number)),
            ..self.after_altitude()
        }
    }

    /// The flight of that number of the pass over the pull.
    pub(crate) fn at_pull(&self, number: u32) -> Plan
        ensures point { IsPointOf self.now pull_pass number result }
        ensures flown { CanBeFlown result }
    {
        let last = self.high_pull(rate_steps(self.area.v0.least));
        Plan {
            intruder: whole_rate(self.area.v1.least),
            aim: whole_rate(self.hi),
            pull: pull_at(place(
                PULL_STEPS * self.low_pull(),
                PULL_STEPS * last,
                u64::from(number),
            )),
            ..self.after_altitude()
        }
    }

    /// The flight of that number of the pass over the hold.
    pub(crate) fn at_hold(&self, number: u32) -> Plan
        ensures point { IsPointOf self.now hold_pass number result }
        ensures flown { CanBeFlown result }
    {
        let rate = rate_steps(self.area.v0.least);
        Plan {
            own: whole_rate(self.area.v0.least),
            hold: hold_at(place(
                TIME_STEPS * self.low_hold(),
                TIME_STEPS * self.high_hold(rate),
                u64::from(number),
            )),
            ..self.plan_from(rate)
        }
    }

    /// The flight of that number of the pass over the own rate.
    pub(crate) fn at_own(&self, number: u32) -> Plan
        ensures point { IsPointOf self.now own_pass number result }
        ensures flown { CanBeFlown result }
    {
        self.plan_from(rising_place(
            rate_steps(self.area.v0.least),
            rate_steps(self.area.v0.greatest),
            number,
        ))
    }
}
