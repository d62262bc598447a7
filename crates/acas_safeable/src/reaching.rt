//! What is reached from a cell within a second.
ghost use Rattle.std.specs.Prelude.{◌≡◌, ◌<◌, ◌≤◌, IfSome, None, unsigned_abs};
ghost use Rattle.acas_cells.specs.Cells.{IsCellOf};
ghost use Rattle.acas_areas.specs.Limits.{IsSmall, interval_of};
ghost use Rattle.acas_areas.specs.Sizes.{altitude_size};
ghost use Rattle.acas_areas.specs.View.{area_of, demand_in};
ghost use Rattle.acas_safeable.specs.Reached.{IsWithinAltitudes, greatest_altitude, greatest_rate, least_altitude, least_rate, reached_area, reached_from};
ghost use Rattle.acas_safeable.specs.View.{cell_of};

use crate::climbs::{altitude_after, highest, lowest};
use crate::outlook::ClearCell;
use acas_areas::{Asked, BoxState};
use acas_base::Model;
use acas_frac::{Down, Up};
use acas_region::asked_by;
use acas_rulings::area_of_cell;
use acas_units::{GREATEST_ALTITUDE, GREATEST_RATE, Span, TICKS_PER_FOOT};

// The altitude where it is within the limits.
fn within(altitude: i128) -> Option<i64>
    ensures value { IfSome result (λ ticks. ticks ≡ altitude) }
    ensures size { IfSome result (λ ticks. unsigned_abs ticks ≤ altitude_size) }
    ensures past { result ≡ None → altitude_size < unsigned_abs altitude }
{
    if altitude.unsigned_abs() <= u128::from(TICKS_PER_FOOT) * GREATEST_ALTITUDE as u128 {
        Some(altitude as i64)
    } else {
        None
    }
}

// The least altitude that is reached.
fn least_altitude(asked: &Asked, area: &BoxState) -> i128
    ensures { result ≡ least_altitude (demand_in asked.now) (interval_of area.now.h) (interval_of area.now.v0)
        (interval_of area.now.v1) }
{
    altitude_after::<Down>(
        area.h.least,
        area.v1.least,
        highest(asked, area.v0.greatest),
    )
}

// The greatest altitude that is reached.
fn greatest_altitude(asked: &Asked, area: &BoxState) -> i128
    ensures { result
        ≡ greatest_altitude (demand_in asked.now) (interval_of area.now.h) (interval_of area.now.v0)
        (interval_of area.now.v1) }
{
    altitude_after::<Up>(
        area.h.greatest,
        area.v1.greatest,
        lowest(asked, area.v0.least),
    )
}

// The own rates that are reached. One below lo does not fall, and any other falls by the limit at most and not below lo; one above hi
// does not rise, and any other rises by the limit at most and not above hi.
#[tactic(auto, using(std::proofs::lemmas::Int::clamps))]
fn reached_rates(asked: &Asked, own: Span) -> Span
    requires { IsSmall (unsigned_abs GREATEST_RATE) (interval_of own) }
    ensures least { result.least ≡ least_rate (demand_in asked.now) (interval_of own) }
    ensures greatest { result.greatest ≡ greatest_rate (demand_in asked.now) (interval_of own) }
    ensures size { IsSmall (unsigned_abs GREATEST_RATE) (interval_of result) }
{
    Span::new(
        own.least.min(asked.lo.max(own.least - asked.limit as i64)),
        own.greatest
            .max(asked.hi.min(own.greatest + asked.limit as i64)),
    )
}

// The area that is reached from another under what an advisory asks.
fn reached_from(asked: &Asked, area: &BoxState) -> Option<BoxState>
    ensures area { IfSome result (λ reached. area_of reached ≡
        reached_from (demand_in asked.now) (interval_of area.now.h) (interval_of area.now.v0) (interval_of area.now.v1)) }
    ensures past { result ≡ None → ¬ IsWithinAltitudes
        (reached_from (demand_in asked.now) (interval_of area.now.h) (interval_of area.now.v0)
        (interval_of area.now.v1)) }
{
    let least = within(least_altitude(asked, area))?;
    let greatest = within(greatest_altitude(asked, area))?;
    Some(BoxState {
        h: Span::new(least, greatest),
        v0: reached_rates(asked, area.v0),
        v1: area.v1,
    })
}

/// The area that is reached from a cell within a second, where the pilot is clear of conflict and the intruder keeps its rate. It is None
/// exactly where an altitude of it is past 1,200,000 ticks, either way. It takes no memory.
pub fn reached(model: &Model, cell: &ClearCell) -> Option<BoxState>
    requires { IsCellOf model.now (cell_of cell.now) }
    ensures area { IfSome result (λ area. area_of area
        ≡ reached_area model.now cell.now.i cell.now.j cell.now.k) }
    ensures within { IfSome result (λ area. IsWithinAltitudes (area_of area)) }
    ensures past { result ≡ None
        → ¬ IsWithinAltitudes (reached_area model.now cell.now.i cell.now.j cell.now.k) }
{
    // Opens the model's limits: it has an advisory, so that clear of conflict is one.
    let _ = model.grid();
    let area = area_of_cell(model, cell.i, cell.j, cell.k);
    reached_from(&asked_by(model, 0), &area)
}
