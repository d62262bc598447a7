//! The two curves of a box against its intruders.
ghost use Rattle.std.specs.Prelude.{◌≡◌, ◌<ℤ◌, ◌≤ℤ◌};
ghost use Rattle.acas_flight.specs.Border.{high_border_of, low_border_of};
ghost use Rattle.acas_areas.specs.View.{area_of, demand_in, border_in};

use crate::numbers::minus;
use acas_areas::{Asked, BoxState, Chase};

/// The low curve of a box against its highest intruder.
pub fn low_chase(asked: &Asked, area: &BoxState) -> Chase
    ensures { border_in result ≡ low_border_of (demand_in asked.now) (area_of area.now) }
{
    if area.v0.least < asked.lo {
        Chase {
            start: area.v0.least,
            aim: asked.lo,
            pull: asked.pull,
            hold: asked.delay,
            height: area.h.greatest,
            rate: area.v1.greatest,
        }
    } else {
        Chase {
            start: area.v0.least,
            aim: asked.lo,
            pull: asked.limit,
            hold: 0,
            height: area.h.greatest,
            rate: area.v1.greatest,
        }
    }
}

// The high curve from above hi, turned upside down.
fn from_over(asked: &Asked, area: &BoxState) -> Chase
    requires { asked.now.hi <ℤ area.now.v0.greatest }
    ensures { border_in result ≡ high_border_of (demand_in asked.now) (area_of area.now) }
{
    Chase {
        start: minus(area.v0.greatest),
        aim: minus(asked.hi),
        pull: asked.pull,
        hold: asked.delay,
        height: minus(area.h.least),
        rate: minus(area.v1.least),
    }
}

// The high curve from hi or below, turned upside down.
fn from_under(asked: &Asked, area: &BoxState) -> Chase
    requires { area.now.v0.greatest ≤ℤ asked.now.hi }
    ensures { border_in result ≡ high_border_of (demand_in asked.now) (area_of area.now) }
{
    Chase {
        start: minus(area.v0.greatest),
        aim: minus(asked.hi),
        pull: asked.limit,
        hold: 0,
        height: minus(area.h.least),
        rate: minus(area.v1.least),
    }
}

/// The high curve of a box against its lowest intruder, turned upside down.
pub fn high_chase(asked: &Asked, area: &BoxState) -> Chase
    ensures { border_in result ≡ high_border_of (demand_in asked.now) (area_of area.now) }
{
    if asked.hi < area.v0.greatest {
        from_over(asked, area)
    } else {
        from_under(asked, area)
    }
}
