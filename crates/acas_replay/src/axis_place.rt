//! The place of an axis whose number is nearest.
ghost use Rattle.acas_grid.specs.Axis.{IsBetweenEnds};
ghost use Rattle.acas_replay.specs.Flown.{IsNearestPlace};

use acas_grid::Axis;

/// The place whose interpolation weight is the greatest at a number, and the first of two such.
pub(crate) fn nearest_place(axis: &Axis, x: i64) -> u32
    requires { IsBetweenEnds axis.now x }
    ensures { IsNearestPlace axis.now x result }
{
    let place = axis.cell_of(x);
    let above_lower = x.abs_diff(axis.value(place));
    let below_upper = axis.value(place + 1).abs_diff(x);
    if below_upper < above_lower {
        place + 1
    } else {
        place
    }
}
