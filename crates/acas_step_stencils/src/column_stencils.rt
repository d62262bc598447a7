//! Where the sigma points lead from each column of vertices under each advisory. All vertices of a column have the same rates, and so a
//! second leads from them to the same rates, by the same climb.
ghost use Rattle.std.specs.Prelude.{◌≡◌, ℕ, ◌*◌, ◌<◌, ◌≤◌, pos, ◌*ℤ◌, unsigned_abs, length, get_or};
ghost use Rattle.std.specs.Int.{◌∣◌};
ghost use Rattle.acas_grid.specs.Grid.{IsVertex};
ghost use Rattle.acas_means.specs.Columns.{columns};
ghost use Rattle.acas_step_stencils.specs.Units.{AreUnits, DivideGaps, DivideUnits};
ghost use Rattle.acas_step_stencils.specs.Stencils.{AreStencils, IsStencilNumbered, IsStencilOf, climb_from, stencil_count, DivideOffsets, IsCountedIn};
ghost use Rattle.acas_step_stencils.specs.declared.column_stencils.ColumnStencil.{ColumnStencil};

use crate::units::{Units, common, grid_units, in_unit};
use acas_base::Model;
use acas_grid::{Grid, Vertex, vertex_at};
use acas_means::column_count;
use acas_step::{cell_near, column_of_cell, led_past, moved_from};

/// Where a second leads from a pair of rates, in the units of the axes. It takes 16 bytes.
#[derive(Clone, Copy)]
pub(crate) struct ColumnStencil {
    /// The number of the column at the lower corner of the cell.
    pub(crate) column: u32,
    /// How far above that corner the point is, on the own rate and on the intruder's.
    pub(crate) v0: u32,
    pub(crate) v1: u32,
    /// How far the second leads up.
    pub(crate) climb: i32,
}

// How far a second leads up from a vertex, be that beside the grid.
fn climb_from(model: &Model, from: Vertex, advisory: u8, sigma: u32) -> i64
    requires vertex { IsVertex model.now.grid from }
    requires advisory { advisory < model.now.grid.advisories }
    requires sigma { sigma < length model.now.sigmas }
    ensures value { result ≡ climb_from model.now from advisory sigma }
    ensures small { unsigned_abs result ≤ 4_000_000 }
{
    led_past(model, from, advisory, sigma).h - model.grid().h.value(from.i)
}

// The stencil of a sigma point at a column under an advisory, in units of 1.
fn column_stencil(model: &Model, column: u32, advisory: u8, sigma: u32) -> ColumnStencil
    requires column { column < columns model.now.grid }
    requires advisory { advisory < model.now.grid.advisories }
    requires sigma { sigma < length model.now.sigmas }
    ensures { IsStencilOf model.now (record { h = 1; v0 = 1; v1 = 1 }) column advisory sigma result }
{
    let grid = model.grid();
    let from = vertex_at(grid, column);
    let cell = cell_near(grid, from, moved_from(model, from, advisory, sigma));
    ColumnStencil {
        column: column_of_cell(grid, &cell),
        v0: cell.v0.upper as u32,
        v1: cell.v1.upper as u32,
        climb: climb_from(model, from, advisory, sigma) as i32,
    }
}

// The stencil of a number, in units of 1.
fn stencil_at(model: &Model, number: u32) -> ColumnStencil
    requires { number < model.now.grid.advisories * columns model.now.grid * length model.now.sigmas }
    ensures { IsStencilNumbered model.now (record { h = 1; v0 = 1; v1 = 1 }) number result }
{
    let columns = column_count(model.grid());
    let points = model.points().len() as u32;
    let row = number / points;
    column_stencil(model, row % columns, (row / columns) as u8, number % points)
}

/// How many stencils a model has.
pub(crate) fn count_of(model: &Model) -> u32
    ensures value { result ≡ stencil_count model.now }
    ensures inside { result ≤ model.now.grid.advisories * columns model.now.grid * length model.now.sigmas }
{
    let grid = model.grid();
    if grid.horizon == 0 {
        return 0;
    }
    grid.advisories * column_count(grid) * model.points().len() as u32
}

// Writes the stencils of a model, in units of 1.
fn fill_stencils(model: &Model, count: u32, stencils: &mut [ColumnStencil])
    requires count { count ≤ model.now.grid.advisories * columns model.now.grid * length model.now.sigmas }
    requires stencils { length stencils.old ≡ count }
    ensures count { length stencils.new ≡ count }
    ensures stencils { AreStencils model.now (record { h = 1; v0 = 1; v1 = 1 }) count stencils.new }
{
    for number in 0..count {
        stencils[number as usize] = stencil_at(model, number);
    }
}

// Units that divide others, and the climb and the offsets of a stencil.
fn units_with(units: Units, stencil: ColumnStencil) -> Units
    requires { AreUnits units }
    ensures some { AreUnits result }
    ensures units { DivideUnits result units }
    ensures offsets { DivideOffsets result stencil }
{
    Units {
        h: common(u64::from(stencil.climb.unsigned_abs()), units.h),
        v0: common(u64::from(stencil.v0), units.v0),
        v1: common(u64::from(stencil.v1), units.v1),
    }
}

// Units that divide the gaps of a grid, and the climbs and the offsets of stencils.
fn units_of(grid: &Grid, stencils: &[ColumnStencil]) -> Units
    ensures some { AreUnits result }
    ensures gaps { DivideGaps grid.now result }
    ensures offsets { (n : ℕ) (d : ColumnStencil) → n < length stencils.now
        → DivideOffsets result (get_or stencils.now n d) }
{
    let mut units = grid_units(grid);
    for stencil in stencils {
        units = units_with(units, *stencil);
    }
    units
}

// A climb counted in a unit that divides it.
fn climb_in_unit(climb: i32, unit: u64) -> i32
    requires some { 0 < unit }
    requires divides { unit ∣ unsigned_abs climb }
    requires small { unsigned_abs climb ≤ 4_000_000 }
    ensures value { pos unit *ℤ result ≡ climb }
    ensures small { unsigned_abs result ≤ 4_000_000 }
{
    let steps = in_unit(climb.unsigned_abs(), unit) as i32;
    if climb < 0 { -steps } else { steps }
}

// A stencil whose climb and offsets are counted in units.
fn counted(stencil: ColumnStencil, units: Units) -> ColumnStencil
    requires units { AreUnits units }
    requires offsets { DivideOffsets units stencil }
    requires small { unsigned_abs stencil.climb ≤ 4_000_000 }
    ensures { IsCountedIn units stencil result }
{
    ColumnStencil {
        column: stencil.column,
        v0: in_unit(stencil.v0, units.v0),
        v1: in_unit(stencil.v1, units.v1),
        climb: climb_in_unit(stencil.climb, units.h),
    }
}

// Counts the climbs and the offsets of stencils in units that divide them.
fn count_offsets(units: Units, stencils: &mut [ColumnStencil])
    requires units { AreUnits units }
    requires offsets { (n : ℕ) (d : ColumnStencil) → n < length stencils.old
        → DivideOffsets units (get_or stencils.old n d) }
    requires small { (n : ℕ) (d : ColumnStencil) → n < length stencils.old
        → unsigned_abs (get_or stencils.old n d).climb ≤ 4_000_000 }
    ensures count { length stencils.new ≡ length stencils.old }
    ensures counted { (n : ℕ) (d : ColumnStencil) → n < length stencils.old
        → IsCountedIn units (get_or stencils.old n d) (get_or stencils.new n d) }
{
    for number in 0..stencils.len() {
        stencils[number] = counted(stencils[number], units);
    }
}

/// Writes the stencils of a model in units of its own, and gives these.
pub(crate) fn fill_in_units(model: &Model, count: u32, stencils: &mut [ColumnStencil]) -> Units
    requires count { count ≤ model.now.grid.advisories * columns model.now.grid * length model.now.sigmas }
    requires stencils { length stencils.old ≡ count }
    ensures count { length stencils.new ≡ count }
    ensures stencils { AreStencils model.now result count stencils.new }
    ensures some { AreUnits result }
    ensures gaps { DivideGaps model.now.grid result }
{
    fill_stencils(model, count, stencils);
    let units = units_of(model.grid(), stencils);
    count_offsets(units, stencils);
    units
}
