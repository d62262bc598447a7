//! The numbers of the last points of the passes.
ghost use Rattle.std.specs.Prelude.{◌≡◌, ◌+◌, ◌-◌, ◌*◌, ◌<◌, ◌≤◌, pos, ◌-ℤ◌, ◌*ℤ◌, ◌≤ℤ◌, unsigned_abs};
ghost use Rattle.acas_areas.specs.Passes.{IsLast};
ghost use Rattle.acas_areas.specs.Search.{aim_pass, altitude_pass, hold_pass, intruder_pass, own_pass, pull_pass, time_pass};
ghost use Rattle.acas_witness_search.specs.Surveys.{search_of};

use crate::survey::Survey;
use acas_areas::{PULL_STEPS, RATE_STEPS, TIME_STEPS};
use acas_units::{GREATEST_CLOSING, GREATEST_RATE, WINDOW_SECONDS};
use acas_witness_plans::{end_parts, rate_steps};

// The way between two numbers, in either direction.
fn way(from: u64, to: u64) -> u64
    ensures { result ≡ (to - from) + (from - to) }
{
    from.abs_diff(to)
}

// The least number of steps that reach from the time a/b to the time c/d.
fn time_steps_between(a: u64, b: u64, c: u64, d: u64) -> u32
    requires a { a ≤ WINDOW_SECONDS * GREATEST_CLOSING }
    requires b { b ≤ GREATEST_CLOSING }
    requires c { c ≤ WINDOW_SECONDS * GREATEST_CLOSING }
    requires d { d ≤ GREATEST_CLOSING }
    requires some_b { 0 < b }
    requires some_d { 0 < d }
    requires early { a ≤ WINDOW_SECONDS * b }
    requires late { c ≤ WINDOW_SECONDS * d }
    ensures reaches { TIME_STEPS * ((c * b - a * d) + (a * d - c * b)) ≤ result * (b * d) }
    ensures first { result * (b * d) < TIME_STEPS * ((c * b - a * d) + (a * d - c * b)) + b * d }
{
    let way = TIME_STEPS * way(a * d, c * b);
    ((way + (b * d - 1)) / (b * d)) as u32
}

/// The steps from one whole rate up to another. Rates are in ft/min, of at most 10,000 in size; a step is one of eight parts.
pub fn rate_steps_between(least: i64, greatest: i64) -> u32
    requires least { unsigned_abs least ≤ unsigned_abs GREATEST_RATE }
    requires greatest { unsigned_abs greatest ≤ unsigned_abs GREATEST_RATE }
    requires order { least ≤ℤ greatest }
    ensures { result ≡ unsigned_abs (pos RATE_STEPS *ℤ (greatest -ℤ least)) }
{
    (RATE_STEPS as i64 * (greatest - least)) as u32
}

impl Survey {
    /// That of the pass over the time.
    pub(crate) fn last_time(&self) -> u32
        ensures { IsLast (time_pass (search_of self.now)) result }
    {
        let (a, b) = end_parts(&self.low);
        let (c, d) = end_parts(&self.high);
        time_steps_between(a, b, c, d)
    }

    /// That of the pass over the altitude.
    pub(crate) fn last_altitude(&self) -> u32
        ensures { IsLast (altitude_pass (search_of self.now)) result }
    {
        (self.area.h.greatest - self.area.h.least) as u32
    }

    /// That of the pass over the intruder's rate.
    pub(crate) fn last_intruder(&self) -> u32
        ensures { IsLast (intruder_pass (search_of self.now)) result }
    {
        rate_steps_between(self.area.v1.least, self.area.v1.greatest)
    }

    /// That of the pass over the aim.
    pub(crate) fn last_aim(&self) -> u32
        ensures { IsLast (aim_pass (search_of self.now)) result }
    {
        rate_steps_between(self.lo, self.hi)
    }

    /// That of the pass over the pull.
    pub(crate) fn last_pull(&self) -> u32
        ensures { IsLast (pull_pass (search_of self.now)) result }
    {
        let last = self.high_pull(rate_steps(self.area.v0.least));
        (PULL_STEPS * way(self.low_pull(), last)) as u32
    }

    /// That of the pass over the hold.
    pub(crate) fn last_hold(&self) -> u32
        ensures { IsLast (hold_pass (search_of self.now)) result }
    {
        let last = self.high_hold(rate_steps(self.area.v0.least));
        (TIME_STEPS * way(self.low_hold(), last)) as u32
    }

    /// That of the pass over the own rate.
    pub(crate) fn last_own(&self) -> u32
        ensures { IsLast (own_pass (search_of self.now)) result }
    {
        rate_steps_between(self.area.v0.least, self.area.v0.greatest)
    }
}
