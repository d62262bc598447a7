//! Where a pass is likely to be no longer below, told by the flight of its last point and by the parabola of a climb. A guess need not be
//! right, so its numbers stop at the greatest of their types.
ghost use Rattle.std.specs.Prelude.{◌≡◌, ◌<◌, ◌≤◌, true, unsigned_abs, IfSome};
ghost use Rattle.acas_witness_search.specs.Order.{rises};

use crate::quantity::Quantity;
use crate::survey::Survey;
use acas_areas::RATE_STEPS;
use acas_witness_plans::{Outcome, clearance, end_parts};

/// The greatest way between two rates, in steps.
const MOST_STEPS: u64 = 160_000;

// By how many whole ticks a flight is above the lowest that is not below. Digits are left off so that the divisor has 64 at most.
fn ticks_above(flight: &Outcome, half: u64) -> u64 {
    let (above, den) = clearance(flight);
    let digits = 64u32.saturating_sub(den.leading_zeros());
    let divisor = u64::try_from(den >> digits).unwrap_or(1).max(1);
    let ticks = (above >> digits) / i128::from(divisor);
    u64::try_from(ticks.saturating_add(i128::from(half))).unwrap_or(0)
}

// The least way of a rate, in steps, on which a pilot gains so much. On a way w the gain is w * (2 * reach - w * den), as long as the
// rate changes.
fn least_way(reach: u64, den: u64, gain: u64) -> u64
    requires { 0 < den }
    ensures { result ≤ MOST_STEPS }
{
    let mut low = 0;
    let mut high = (reach / den).min(MOST_STEPS);
    while low < high {
        let middle = low + (high - low) / 2;
        let rest = reach
            .saturating_mul(2)
            .saturating_sub(middle.saturating_mul(den));
        if middle.saturating_mul(rest) < gain {
            low = middle + 1;
        } else {
            high = middle;
        }
    }
    low
}

// The way up on which a pilot gains so much, or where that is below 0 the longest way down on which no more is lost.
fn way_of(reach: u64, den: u64, gain: i64) -> i64
    requires { 0 < den }
    ensures { unsigned_abs result ≤ MOST_STEPS }
{
    let size = gain.unsigned_abs();
    if gain > 0 {
        least_way(reach, den, size) as i64
    } else {
        1 - least_way(reach, den, size + 1) as i64
    }
}

// So many points before the last one.
fn before(last: u32, steps: u64) -> u32
    ensures { result ≤ last }
{
    u64::from(last).saturating_sub(steps) as u32
}

impl Survey {
    // By how many steps the rate of the intruder may be greater than in a last flight.
    fn slower_steps(&self, flight: &Outcome) -> u64 {
        let (time, den) = end_parts(&self.high);
        let ticks = ticks_above(flight, self.half);
        if time == 0 {
            0
        } else {
            ticks.saturating_mul(RATE_STEPS * den) / (2 * time)
        }
    }

    // How many steps an aim is above the least one, so that the climb to it from the least own rate just reaches the puck of the
    // lowest and slowest intruder.
    fn aim_steps(&self) -> u32 {
        let (time, den) = end_parts(&self.high);
        let pull = self.low_pull();
        let rest = time.saturating_sub(self.low_hold() * den);
        let own = self.area.v0.least;
        let height = (self.area.h.least - self.half as i64).saturating_mul(den as i64);
        let farther = (2 * (self.area.v1.least - own)).saturating_mul(time as i64);
        let gain = (64 * pull as i64).saturating_mul(height.saturating_add(farther));
        let reach = (RATE_STEPS * pull).saturating_mul(rest);
        let way = way_of(reach, den, gain);
        u32::try_from(RATE_STEPS as i64 * (own - self.lo) + way).unwrap_or(0)
    }

    /// The point at which a pass is likely to be no longer below, from the flight of its last point, for a pass along which the value of
    /// a flight never falls.
    pub(crate) fn guess(&self, quantity: Quantity, last: u32, flight: &Outcome) -> Option<u32>
        ensures { IfSome result (λ number. rises quantity ≡ true) }
    {
        match quantity {
            Quantity::Altitude => Some(before(last, ticks_above(flight, self.half))),
            Quantity::Intruder => Some(before(last, self.slower_steps(flight))),
            Quantity::Aim => Some(self.aim_steps()),
            _ => None,
        }
    }
}
