//! Contact within a second.
ghost use Rattle.std.specs.Prelude.{◌≡◌, ◌<◌, ◌≤◌, ◌*◌, IsTrue, ◌↔◌};
ghost use Rattle.acas_replay.specs.Contact.{HasContact};
ghost use Rattle.acas_replay.specs.Seconds.{IsSecond, near_fractions};

use crate::parabola::{Fractions, Parabola};
use crate::second::Second;
use acas_units::{GREATEST_HALF_HEIGHT, GREATEST_RADIUS, TICKS_PER_FOOT};

// The fractions of a second at which the range is at most the radius, on either side.
fn near_fractions(radius: u32, second: &Second) -> Fractions
    requires radius { radius ≤ GREATEST_RADIUS }
    requires second { IsSecond second.now }
    ensures { result ≡ near_fractions radius second.now }
{
    let radius = i64::from(radius);
    Fractions {
        parts: second.closing,
        first: (second.range - radius).max(0),
        last: (second.range + radius).min(second.closing),
    }
}

/// Whether two aircraft are in contact at some fraction of a second, its ends included: whether the intruder is in the puck of a
/// radius in ft and half a height in ticks, or at its edge.
pub fn has_contact(radius: u32, half: u32, second: &Second) -> bool
    requires radius { radius ≤ GREATEST_RADIUS }
    requires some_half { 0 < half }
    requires half { half ≤ TICKS_PER_FOOT * GREATEST_HALF_HEIGHT }
    requires second { IsSecond second.now }
    ensures { IsTrue result ↔ HasContact radius half second.now }
{
    let during = near_fractions(radius, second);
    if during.last < during.first {
        return false;
    }
    let separation = Parabola {
        level: second.altitude,
        slope: second.rate,
        bend: second.change,
    };
    !separation.stays_outside(i64::from(half), &during)
}
