//! Altitudes in ticks. A tick is so short that a flight at a rate `v` in ft/min under an acceleration `a` in ft/min
//! per second climbs `2*v*t + a*t*t` ticks in `t` seconds.
ghost use Rattle.std.specs.Prelude.{◌≡◌, pos, ◌≤ℤ◌, ◌*ℤ◌};

use crate::limits::{GREATEST_ALTITUDE, LEAST_ALTITUDE};

/// The number of ticks in a foot.
pub const TICKS_PER_FOOT: u32 = 120;

/// An altitude of whole feet, within the limits of altitudes, in ticks.
pub fn feet_to_ticks(feet: i64) -> i64
    requires least { LEAST_ALTITUDE ≤ℤ feet }
    requires greatest { feet ≤ℤ GREATEST_ALTITUDE }
    ensures { result ≡ pos TICKS_PER_FOOT *ℤ feet }
{
    i64::from(TICKS_PER_FOOT) * feet
}
