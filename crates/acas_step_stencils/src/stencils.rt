//! Where the sigma points lead from each vertex under each advisory: by the stencil of its column, found once for all layers, and by its
//! altitude.
ghost use Rattle.std.specs.Prelude.{◌≡◌, ◌+◌, ◌<◌, ◌≤◌, ℕ, ℤ, length, IfOk};
ghost use Rattle.acas_spec.specs.Limits.{IsGrid};
ghost use Rattle.acas_spec.specs.Model.{vertices};
ghost use Rattle.acas_spec.specs.declared.place.Point.{Point};
ghost use Rattle.acas_grid.specs.States as numbers;
ghost use Rattle.acas_process.specs.Step as process;
ghost use Rattle.acas_means.specs.Columns.{columns, vertex_in};
ghost use Rattle.acas_step.specs.Corners.{AreCorners, IsInterpolation, IsWeighting};
ghost use Rattle.acas_step.specs.Ends.{FitsGrid, IsEnds, IsRound};
ghost use Rattle.acas_step_stencils.specs.Units.{IsAbove, AreUnits};
ghost use Rattle.acas_step_stencils.specs.Heights.{IsLedTo};
ghost use Rattle.acas_step_stencils.specs.Stencils.{AreStencilsOf, HaveStencil, HaveVertex, IsDivisorAbove, IsRise, IsSizeAbove, IsStencil, IsStencilOf, point_from};
ghost use Rattle.acas_step_stencils.specs.Cells.{HoldsRates, IsUnitCell, IsVertexCell};

use crate::column_stencils::{ColumnStencil, count_of, fill_in_units};
use crate::heights::{
    ClimbInGaps, HeightPlace, climb_in_gaps, even_gap, heights_of, place_after, place_by_search,
};
use crate::units::{Units, gap_at};
use crate::vertex_cells::{VertexCell, vertex_cells};
use acas_base::Model;
use acas_frac::Divisor;
use acas_grid::{Axis, Grid, vertex_at};
use acas_means::{column_count, vertex_in_column};
use acas_step::{Cell, CornerSet, Ends, corner_set, total_weight};
use std::alloc::{AllocError, Global};

/// The number of the vertex at the lower corner of a cell, and how far above that corner a point is on each axis, in the units of
/// the axes.
#[derive(Clone, Copy)]
pub(crate) struct Stencil {
    base: u32,
    h: u32,
    v0: u32,
    v1: u32,
}

/// By what a stencil is found: the column from which it leads, the advisory under which it does, and its sigma point, by their numbers.
#[derive(Clone, Copy)]
pub struct StencilKey {
    pub column: u32,
    pub advisory: u8,
    pub sigma: u32,
}

/// The stencil of a column, with its climb in gaps of the altitudes, and the whole weight of the cell above the lowest vertex of the column
/// that it leads to: what the cells of all its vertices follow from.
#[derive(Clone, Copy)]
pub struct Rise {
    led: ColumnStencil,
    climb: ClimbInGaps,
    divisor: Divisor,
}

/// The gap of a cell on the axis of altitudes, in a unit, and the whole weight of the cell as a divisor.
#[derive(Clone, Copy)]
pub(crate) struct CellSize {
    gap: u32,
    divisor: Divisor,
}

/// The cell of a stencil in units, the number of its lower corner, and its whole weight as a divisor.
#[derive(Clone, Copy)]
pub struct UnitCell {
    pub cell: Cell,
    pub base: u32,
    pub divisor: Divisor,
}

/// The stencils of a model: for each advisory, column of vertices and sigma point the cell of the rates that a second leads to, where in
/// it, and how far up. With them stand the heights of the altitudes, the gap between them if it is the same everywhere, the cell above each
/// vertex and the whole weight of the sigma points.
#[derive(Drop)]
pub struct Stencils {
    stencils: Vec<ColumnStencil>,
    units: Units,
    heights: Vec<u32>,
    even: u32,
    cells: Vec<VertexCell>,
    /// The whole weight of the sigma points.
    pub total: Divisor,
}

// The ends of the cell that begins at a place of an axis, for a number that is so many units above that place.
fn ends_above(axis: &Axis, unit: u64, place: u32, offset: u32) -> Ends
    requires { (x : ℤ) × IsAbove axis.now unit x place offset }
    ensures { (x : ℤ) → IsAbove axis.now unit x place offset → IsEnds axis.now x result }
{
    let gap = gap_at(axis, place);
    let upper = unit * u64::from(offset);
    Ends {
        cell: place,
        lower: gap - upper,
        upper,
    }
}

// The cell of a stencil.
fn cell_of_stencil(grid: &Grid, units: Units, stencil: Stencil) -> Cell
    requires grid { IsGrid grid.now }
    requires stencil { (x : Point) × IsStencil grid.now units x stencil }
    ensures round { (x : Point) → IsStencil grid.now units x stencil → IsRound grid.now x result }
    ensures fits { FitsGrid grid.now result }
{
    let base = vertex_at(grid, stencil.base);
    Cell {
        h: ends_above(&grid.h, units.h, base.i, stencil.h),
        v0: ends_above(&grid.v0, units.v0, base.j, stencil.v0),
        v1: ends_above(&grid.v1, units.v1, base.k, stencil.v1),
    }
}

// The stencil of a vertex by that of its column and the place of the height that it leads to.
fn stencil_of(grid: &Grid, led: ColumnStencil, at: HeightPlace) -> Stencil
    requires column { led.column < columns grid.now }
    requires place { at.place < length grid.now.h }
    ensures base { result.base ≡ vertex_in grid.now led.column at.place }
    ensures below { result.base < vertices grid.now }
    ensures h { result.h ≡ at.offset }
    ensures v0 { result.v0 ≡ led.v0 }
    ensures v1 { result.v1 ≡ led.v1 }
{
    Stencil {
        base: vertex_in_column(grid, led.column, at.place),
        h: at.offset,
        v0: led.v0,
        v1: led.v1,
    }
}

// The ends of a cell on an axis in a unit, for a number that is so many units above the place where it begins.
fn ends_in(place: u32, gap: u32, offset: u32) -> Ends
    requires { offset ≤ gap }
    ensures cell { result.cell ≡ place }
    ensures lower { result.lower + offset ≡ gap }
    ensures upper { result.upper ≡ offset }
{
    Ends {
        cell: place,
        lower: u64::from(gap - offset),
        upper: u64::from(offset),
    }
}

// The cell of a stencil in units, by the cell above its lower corner.
fn unit_cell_of(grid: &Grid, units: Units, above: VertexCell, stencil: Stencil) -> UnitCell
    requires grid { IsGrid grid.now }
    requires units { AreUnits units }
    requires above { IsVertexCell grid.now units (numbers.vertex_at grid.now stencil.base) above }
    requires stencil { (x : Point) × IsStencil grid.now units x stencil }
    ensures { (x : Point) → IsStencil grid.now units x stencil → IsUnitCell grid.now units x result }
{
    let _ = grid.vertices();
    UnitCell {
        cell: Cell {
            h: ends_in(u32::from(above.i), above.h, stencil.h),
            v0: ends_in(u32::from(above.j), above.v0, stencil.v0),
            v1: ends_in(u32::from(above.k), above.v1, stencil.v1),
        },
        base: stencil.base,
        divisor: above.divisor,
    }
}

impl Stencils {
    /// The stencils of a model. It takes 16 bytes for each, and at horizon 0 there are none; and it takes 40 bytes for each vertex and
    /// 4 for each altitude. It fails only for want of memory.
    pub fn make(alloc: Global, model: &Model) -> Result<Stencils, AllocError>
        ensures { IfOk result (λ stencils. AreStencilsOf model.now stencils) }
    {
        let count = count_of(model);
        let none = ColumnStencil {
            column: 0,
            v0: 0,
            v1: 0,
            climb: 0,
        };
        let mut stencils = vec![in alloc; none; count as usize]?;
        let units = fill_in_units(model, count, &mut stencils);
        let heights = heights_of(alloc, model.grid(), units.h)?;
        let even = even_gap(&heights);
        let cells = vertex_cells(alloc, model.grid(), units)?;
        Ok(Stencils {
            stencils,
            units,
            heights,
            even,
            cells,
            total: Divisor::new(total_weight(model) as u64),
        })
    }

    // The stencil of a key.
    fn in_column(&self, model: &Model, key: StencilKey) -> ColumnStencil
        requires { HaveStencil model.now self.now key }
        ensures { IsStencilOf model.now self.now.units key.column key.advisory key.sigma result }
    {
        let row = u32::from(key.advisory) * column_count(model.grid()) + key.column;
        self.stencils[row as usize * model.points().len() + key.sigma as usize]
    }

    // The stencil of a key from the vertex of its column at a place of the altitudes.
    fn stencil(&self, model: &Model, key: StencilKey, i: u32) -> Stencil
        requires stencil { HaveStencil model.now self.now key }
        requires place { i < length model.now.grid.h }
        ensures { IsStencil model.now.grid self.now.units (point_from model.now key i) result }
    {
        let grid = model.grid();
        let led = self.in_column(model, key);
        let at = place_by_search(&self.heights, i, led.climb);
        stencil_of(grid, led, at)
    }

    /// What the cells of all vertices of a key's column follow from: to be formed once for the column, with the one division that it takes.
    pub fn rise(&self, model: &Model, key: StencilKey) -> Rise
        requires { HaveStencil model.now self.now key }
        ensures { IsRise model.now self.now key result }
    {
        let _ = model.grid();
        let led = self.in_column(model, key);
        Rise {
            led,
            climb: climb_in_gaps(led.climb, self.even),
            divisor: self.cells[led.column as usize].divisor,
        }
    }

    // The place of the altitude to which the stencil of a key leads from the vertex of its column at a place of the altitudes, by its rise.
    fn place_risen(&self, model: &Model, key: StencilKey, i: u32, rise: Rise) -> HeightPlace
        requires stencil { HaveStencil model.now self.now key }
        requires place { i < length model.now.grid.h }
        requires rise { IsRise model.now self.now key rise }
        ensures { (x : ℕ) × IsLedTo self.now.heights.items i rise.led.climb x result }
    {
        let _ = model.grid();
        place_after(&self.heights, self.even, i, rise.led.climb, rise.climb)
    }

    // The size of the cell above a vertex of the column that a rise leads to: over an even axis of altitudes all of them have the same.
    fn size_above(&self, model: &Model, base: u32, rise: Rise) -> CellSize
        requires stencils { AreStencilsOf model.now self.now }
        requires column { rise.led.column < columns model.now.grid }
        requires divisor { IsDivisorAbove model.now.grid self.now.units rise.led.column rise.divisor }
        requires base { (place : ℕ) × (place + 1 < length model.now.grid.h)
            × (base ≡ vertex_in model.now.grid rise.led.column place) }
        ensures { IsSizeAbove model.now.grid self.now.units base result }
    {
        let _ = model.grid();
        if self.even > 0 {
            return CellSize {
                gap: self.even,
                divisor: rise.divisor,
            };
        }
        let corner = self.cells[base as usize];
        CellSize {
            gap: corner.h,
            divisor: corner.divisor,
        }
    }

    // The cell to which a sigma point leads from a vertex within a second under an advisory.
    pub(crate) fn cell(&self, model: &Model, vertex: u32, advisory: u8, sigma: u32) -> Cell
        requires { HaveVertex model.now self.now vertex advisory sigma }
        ensures round { let x = numbers.vertex_at model.now.grid vertex in
            IsRound model.now.grid (process.moved model.now x advisory sigma) result }
        ensures fits { FitsGrid model.now.grid result }
    {
        let grid = model.grid();
        let columns = column_count(grid);
        let key = StencilKey {
            column: vertex % columns,
            advisory,
            sigma,
        };
        let stencil = self.stencil(model, key, vertex / columns);
        cell_of_stencil(grid, self.units, stencil)
    }

    /// The cell in units to which the stencil of a key leads from the vertex of its column at a place of the altitudes, with no division.
    pub fn unit_cell(&self, model: &Model, key: StencilKey, i: u32) -> UnitCell
        requires stencil { HaveStencil model.now self.now key }
        requires place { i < length model.now.grid.h }
        ensures { IsUnitCell model.now.grid self.now.units (point_from model.now key i) result }
    {
        let stencil = self.stencil(model, key, i);
        let above = self.cells[stencil.base as usize];
        unit_cell_of(model.grid(), self.units, above, stencil)
    }

    /// What `unit_cell` gives, by the rise of a key's stencil and where the rates are in a cell that is known.
    pub fn cell_at_rates(
        &self,
        model: &Model,
        key: StencilKey,
        i: u32,
        rise: Rise,
        rates: &Cell,
    ) -> UnitCell
        requires stencil { HaveStencil model.now self.now key }
        requires place { i < length model.now.grid.h }
        requires rise { IsRise model.now self.now key rise }
        requires rates { HoldsRates model.now.grid self.now.units (point_from model.now key i) rates.now }
        ensures cell { IsUnitCell model.now.grid self.now.units (point_from model.now key i) result }
        ensures v0 { result.cell.v0 ≡ rates.now.v0 }
        ensures v1 { result.cell.v1 ≡ rates.now.v1 }
    {
        let grid = model.grid();
        let at = self.place_risen(model, key, i, rise);
        let base = vertex_in_column(grid, rise.led.column, at.place);
        let size = self.size_above(model, base, rise);
        UnitCell {
            cell: Cell {
                h: ends_in(at.place, size.gap, at.offset),
                v0: rates.v0,
                v1: rates.v1,
            },
            base,
            divisor: size.divisor,
        }
    }

    /// The corners of the cell to which a sigma point leads from a vertex within a second under an advisory: those that `corners`
    /// gives of the point that `moved` gives.
    pub fn corners(&self, model: &Model, vertex: u32, advisory: u8, sigma: u32) -> CornerSet
        requires { HaveVertex model.now self.now vertex advisory sigma }
        ensures corners { let x = numbers.vertex_at model.now.grid vertex in
            let s = process.moved model.now x advisory sigma in
            AreCorners model.now.grid s result.corners result.total }
        ensures sums { let x = numbers.vertex_at model.now.grid vertex in
            let s = process.moved model.now x advisory sigma in
            IsInterpolation model.now.grid s result.corners result.total }
        ensures weights { IsWeighting model.now.grid result.corners result.total }
    {
        let cell = self.cell(model, vertex, advisory, sigma);
        corner_set(model.grid(), &cell)
    }
}
