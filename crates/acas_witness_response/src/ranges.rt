//! The range and the closing speed of a witness.
ghost use Rattle.std.specs.Prelude.{◌≡◌, ◌+◌, ◌*◌, ◌<◌, ◌≤◌, max, min};
ghost use Rattle.acas_areas.specs.Limits.{IsFlownInTime, IsTime, interval_of};
ghost use Rattle.acas_rulings.specs.Ranges.{IsBoxesRange, IsCellsRange, IsContactOf, IsContactOfBox, IsContactOfCell, IsQuotient, IsRangeOf, IsTimeOfBox, IsTimeOfCell, interval_from};

use acas_areas::TIME_PARTS;
use acas_base::Model;
use acas_frac::Frac;
use acas_region_curves::time_parts;
use acas_rulings::{Flight, Witness};
use acas_units::{GREATEST_CLOSING, GREATEST_HORIZON, GREATEST_RADIUS, Span, WINDOW_SECONDS};
use acas_witness_plans::{natural, ratio};

// The radius, and what a speed flies in the lesser of a time and so many seconds.
fn range_of(radius: u64, speed: u64, most: u64, time: u64, den: u64) -> Frac
    requires radius { radius ≤ GREATEST_RADIUS }
    requires speed { speed ≤ GREATEST_CLOSING }
    requires most { most ≤ GREATEST_HORIZON }
    requires time { time ≤ WINDOW_SECONDS * TIME_PARTS }
    requires den { den ≤ TIME_PARTS }
    requires some { 0 < den }
    ensures { IsQuotient (radius * den + speed * min time (most * den)) den result }
{
    ratio((radius * den + speed * time.min(most * den)) as i64, den)
}

/// The witness of a cell of n seconds, with the least closing speed, and the range from which that comes nearest at the flight's time.
/// The time is one of horizontal contact of the cell, and over 1,280,000 at most, as each time that is found is.
pub fn of_cell(model: &Model, n: u32, flight: Flight) -> Witness
    requires number { n < model.now.grid.horizon }
    requires time { IsTime flight.time }
    requires during { IsTimeOfCell model.now n flight.time }
    ensures flight { result.flight ≡ flight }
    ensures rule { IsCellsRange model.now n flight.time result.range result.speed }
    ensures contact { IsContactOfCell model.now n flight.time result.range result.speed }
{
    let _ = model.grid();
    let closing = model.closing();
    let (time, den) = time_parts(&flight.time);
    Witness {
        range: range_of(
            natural(model.radius()),
            natural(closing.least),
            u64::from(n) + 1,
            time,
            den,
        ),
        speed: Frac::whole(closing.least),
        flight,
    }
}

// The range of a box that is nearest to a distance flown.
fn nearest(near: u64, far: u64, flown: u64, den: u64) -> Frac
    requires order { near ≤ far }
    requires far { far ≤ WINDOW_SECONDS * GREATEST_CLOSING }
    requires flown { flown ≤ GREATEST_CLOSING * (WINDOW_SECONDS * TIME_PARTS) }
    requires den { den ≤ TIME_PARTS }
    requires some { 0 < den }
    ensures { IsQuotient (max (near * den) (min (far * den) flown)) den result }
{
    ratio((near * den).max((far * den).min(flown)) as i64, den)
}

// The speed at which a distance is flown in a time.
fn speed_of(distance: u64, time: u64, den: u64) -> Frac
    requires distance { distance ≤ WINDOW_SECONDS * GREATEST_CLOSING }
    requires time { time ≤ WINDOW_SECONDS * TIME_PARTS }
    requires den { den ≤ TIME_PARTS }
    requires some { 0 < time }
    ensures { IsQuotient (distance * den) time result }
{
    ratio((distance * den) as i64, time)
}

// A range and a closing speed of a box for a time.
fn pair_of(radius: u64, near: u64, far: u64, slow: u64, fast: u64, time: &Frac) -> (Frac, Frac)
    requires ranges { near ≤ far }
    requires far { far ≤ WINDOW_SECONDS * GREATEST_CLOSING }
    requires speeds { slow ≤ fast }
    requires fast { fast ≤ GREATEST_CLOSING }
    requires time { IsTime time.now }
    requires during { IsTimeOfBox radius (interval_from near far) (interval_from slow fast) time.now }
    ensures rule { IsBoxesRange radius (interval_from near far) (interval_from slow fast) time.now result.0
        result.1 }
    ensures contact { IsContactOfBox radius (interval_from near far) (interval_from slow fast) time.now
        result.0 result.1 }
{
    let (num, den) = time_parts(time);
    let first = near.saturating_sub(radius);
    if first * den <= slow * num {
        (
            nearest(near, far, slow * num, den),
            Frac::whole(slow as i64),
        )
    } else {
        (Frac::whole(near as i64), speed_of(first, num, den))
    }
}

/// The witness of a box, with the least closing speed if it flies what of the least range is outside the radius, and otherwise the one
/// that does; and with the range nearest to what that flies. The flight's time is one of horizontal contact of the box, and over
/// 1,280,000 at most, as each time that is found is.
pub fn of_box(model: &Model, range: Span, closing: Span, flight: Flight) -> Witness
    requires spans { IsFlownInTime model.now (interval_of range) (interval_of closing) }
    requires time { IsTime flight.time }
    requires during { IsTimeOfBox model.now.radius (interval_of range) (interval_of closing) flight.time }
    ensures flight { result.flight ≡ flight }
    ensures rule { IsRangeOf model.now range closing flight.time result.range result.speed }
    ensures contact { IsContactOf model.now range closing flight.time result.range result.speed }
{
    let _ = model.grid();
    let (found, speed) = pair_of(
        natural(model.radius()),
        natural(range.least),
        natural(range.greatest),
        natural(closing.least),
        natural(closing.greatest),
        &flight.time,
    );
    Witness {
        range: found,
        speed,
        flight,
    }
}
