//! Whether a box is clear of contact, in whole numbers and without a division.
ghost use Rattle.std.specs.Prelude.{◌≡◌, ◌*◌, ◌<◌, ◌≤◌, ◌↔◌, pos, ◌<ℤ◌, ◌≤ℤ◌, IsTrue, int_lt};
ghost use Rattle.acas_flight.specs.Response.{demand_of};
ghost use Rattle.acas_flight.specs.Clear.{IsClear, IsClearAbove, IsClearBelow, IsEndangeredDuring};
ghost use Rattle.acas_flight.specs.Border.{gap_number};
ghost use Rattle.acas_areas.specs.Chases.{StaysOver};
ghost use Rattle.acas_areas.specs.View.{area_of, demand_in, border_in, times_of};

use crate::borders::{high_chase, low_chase};
use crate::chase::{gap_number, moment_of, scale};
use crate::demand::asked_by;
use crate::nearest::nearest;
use crate::numbers::natural;
use acas_areas::{Asked, BoxState, Chase, Moment, Window};
use acas_base::Model;
use acas_units::{GREATEST_HALF_HEIGHT, TICKS_PER_FOOT};

// Whether the curve is more than the half height over the intruder at a time.
fn is_over(chase: &Chase, at: &Moment, half: u64) -> bool
    requires { half ≤ TICKS_PER_FOOT * GREATEST_HALF_HEIGHT }
    ensures { result ≡ int_lt (pos (half * (at.now.den * at.now.den * chase.now.pull)))
        (gap_number (border_in chase.now) at.now.den at.now.num) }
{
    i128::from(half * scale(chase, at)) < gap_number(chase, at)
}

// Whether a rising curve stays over: it is over where it is nearest.
fn is_over_nearest(chase: &Chase, window: &Window, half: u64) -> bool
    requires rising { chase.now.start <ℤ chase.now.aim }
    requires half { half ≤ TICKS_PER_FOOT * GREATEST_HALF_HEIGHT }
    ensures { IsTrue result ↔ StaysOver half (border_in chase.now) (times_of window.now) }
{
    is_over(chase, &nearest(chase, window), half)
}

// Whether a curve that does not rise stays over: it is over at both ends.
fn is_over_ends(chase: &Chase, window: &Window, half: u64) -> bool
    requires falling { chase.now.aim ≤ℤ chase.now.start }
    requires half { half ≤ TICKS_PER_FOOT * GREATEST_HALF_HEIGHT }
    ensures { IsTrue result ↔ StaysOver half (border_in chase.now) (times_of window.now) }
{
    is_over(chase, &moment_of(&window.from), half) && is_over(chase, &moment_of(&window.to), half)
}

// Whether the curve stays more than the half height over the intruder.
fn stays_over(chase: &Chase, window: &Window, half: u64) -> bool
    requires { half ≤ TICKS_PER_FOOT * GREATEST_HALF_HEIGHT }
    ensures { IsTrue result ↔ StaysOver half (border_in chase.now) (times_of window.now) }
{
    if chase.start < chase.aim {
        is_over_nearest(chase, window, half)
    } else {
        is_over_ends(chase, window, half)
    }
}

// Whether every flight is above the half height all the time.
fn is_above(asked: &Asked, area: &BoxState, window: &Window, half: u64) -> bool
    requires { half ≤ TICKS_PER_FOOT * GREATEST_HALF_HEIGHT }
    ensures { IsTrue result ↔
        IsClearAbove half (demand_in asked.now) (area_of area.now) (times_of window.now) }
{
    stays_over(&low_chase(asked, area), window, half)
}

// Whether every flight is below it all the time.
fn is_below(asked: &Asked, area: &BoxState, window: &Window, half: u64) -> bool
    requires { half ≤ TICKS_PER_FOOT * GREATEST_HALF_HEIGHT }
    ensures { IsTrue result ↔
        IsClearBelow half (demand_in asked.now) (area_of area.now) (times_of window.now) }
{
    stays_over(&high_chase(asked, area), window, half)
}

// Whether the box is clear under what an advisory asks.
fn is_clear_of(asked: &Asked, area: &BoxState, window: &Window, half: u64) -> bool
    requires { half ≤ TICKS_PER_FOOT * GREATEST_HALF_HEIGHT }
    ensures { IsTrue result ↔ IsClear half (demand_in asked.now) (area_of area.now) (times_of window.now) }
{
    is_above(asked, area, window, half) || is_below(asked, area, window, half)
}

/// Whether the box is clear in the window: every flight from it that meets the advisory is above the half height at every time,
/// or every such flight is below it at every time. Then none of them ends in contact.
pub fn is_clear(model: &Model, area: &BoxState, window: &Window, advisory: u8) -> bool
    requires { advisory < model.now.grid.advisories }
    ensures exact { IsTrue result ↔
        IsClear model.now.half (demand_of model.now advisory) (area_of area.now) (times_of window.now) }
    ensures safe { IsTrue result →
        ¬ IsEndangeredDuring model.now.half (demand_of model.now advisory) (area_of area.now)
        (times_of window.now) }
{
    let _ = model.grid();
    let half = natural(model.half());
    is_clear_of(&asked_by(model, advisory), area, window, half)
}
