//! The areas of cells.
ghost use Rattle.std.specs.Prelude.{◌≡◌, ◌+◌, ◌<◌, length};
ghost use Rattle.acas_flight.specs.Clear.{area_of_cell};
ghost use Rattle.acas_areas.specs.Limits.{interval_of};
ghost use Rattle.acas_areas.specs.View.{area_of};
ghost use Rattle.acas_rulings.specs.Spans.{between};

use acas_areas::BoxState;
use acas_base::Model;
use acas_grid::Axis;
use acas_units::Span;

/// The numbers from a place of an axis to a later one.
pub fn between(axis: &Axis, first: u32, last: u32) -> Span
    requires rising { first < last }
    requires last { last < length axis.now }
    ensures { interval_of result ≡ between axis.now first last }
{
    let least = axis.value(first);
    let greatest = axis.value(last);
    Span::new(least, greatest)
}

/// The area of a cell whose lower corner has the places i, j, k.
pub fn area_of_cell(model: &Model, i: u32, j: u32, k: u32) -> BoxState
    requires i { i + 1 < length model.now.grid.h }
    requires j { j + 1 < length model.now.grid.v0 }
    requires k { k + 1 < length model.now.grid.v1 }
    ensures { area_of result ≡ area_of_cell model.now i j k }
{
    let grid = model.grid();
    BoxState {
        h: between(&grid.h, i, i + 1),
        v0: between(&grid.v0, j, j + 1),
        v1: between(&grid.v1, k, k + 1),
    }
}
