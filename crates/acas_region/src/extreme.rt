//! The least and the greatest gap of a box of states.
ghost use Rattle.std.specs.Prelude.{◌<◌};
ghost use Rattle.acas_frac.specs.Fraction.{IsFrac};
ghost use Rattle.acas_flight.specs.Response.{demand_of};
ghost use Rattle.acas_flight.specs.Extremes.{IsHighExtreme, IsHighGapAt, IsLowExtreme, IsLowGapAt};
ghost use Rattle.acas_areas.specs.Limits.{IsEnd};
ghost use Rattle.acas_areas.specs.View.{area_of, demand_in, times_of};

use crate::borders::{high_chase, low_chase};
use crate::demand::asked_by;
use crate::least::least;
use crate::numbers::negate;
use acas_areas::{Asked, BoxState, Extreme, Window};
use acas_base::Model;

// The least gap under what an advisory asks.
fn low_of(asked: &Asked, area: &BoxState, window: &Window) -> Extreme
    ensures least { IsLowExtreme (demand_in asked.now) (area_of area.now) (times_of window.now) result.time }
    ensures value { IsLowGapAt (demand_in asked.now) (area_of area.now) result.time result.value }
    ensures end { IsEnd result.time }
    ensures lowest { IsFrac result.value }
{
    least(&low_chase(asked, area), window)
}

/// The least gap in the window, in ticks, between the lowest flight from the box that meets the advisory and the highest intruder, at
/// its earliest time.
pub fn low_extreme(model: &Model, area: &BoxState, window: &Window, advisory: u8) -> Extreme
    requires { advisory < model.now.grid.advisories }
    ensures least { IsLowExtreme (demand_of model.now advisory) (area_of area.now) (times_of window.now)
        result.time }
    ensures value { IsLowGapAt (demand_of model.now advisory) (area_of area.now) result.time result.value }
    ensures end { IsEnd result.time }
    ensures lowest { IsFrac result.value }
{
    low_of(&asked_by(model, advisory), area, window)
}

// The greatest gap under it.
fn high_of(asked: &Asked, area: &BoxState, window: &Window) -> Extreme
    ensures greatest { IsHighExtreme (demand_in asked.now) (area_of area.now) (times_of window.now)
        result.time }
    ensures value { IsHighGapAt (demand_in asked.now) (area_of area.now) result.time result.value }
    ensures end { IsEnd result.time }
    ensures lowest { IsFrac result.value }
{
    let turned = least(&high_chase(asked, area), window);
    Extreme {
        time: turned.time,
        value: negate(&turned.value),
    }
}

/// The greatest gap in the window, in ticks, between the highest flight from the box that meets the advisory and the lowest intruder,
/// at its earliest time.
pub fn high_extreme(model: &Model, area: &BoxState, window: &Window, advisory: u8) -> Extreme
    requires { advisory < model.now.grid.advisories }
    ensures greatest { IsHighExtreme (demand_of model.now advisory) (area_of area.now) (times_of window.now)
        result.time }
    ensures value { IsHighGapAt (demand_of model.now advisory) (area_of area.now) result.time result.value }
    ensures end { IsEnd result.time }
    ensures lowest { IsFrac result.value }
{
    high_of(&asked_by(model, advisory), area, window)
}
