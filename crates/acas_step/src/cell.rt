//! The cell that holds a point, and its eight corners with their interpolation weights.
ghost use Rattle.std.specs.Prelude.{◌≡◌, ◌*◌, ◌+◌, ◌<◌, ◌≤◌, pos};
ghost use Rattle.acas_spec.specs.Limits.{IsGrid};
ghost use Rattle.acas_spec.specs.declared.place.Point.{Point};
ghost use Rattle.acas_grid.specs.Axis.{IsBetweenEnds, IsCell};
ghost use Rattle.acas_grid.specs.Grid.{IsInside};
ghost use Rattle.acas_step.specs.Corners.{AreCorners, IsInterpolation, IsWeighting};
ghost use Rattle.acas_step.specs.Ends.{FitsGrid, IsCorner, IsEnds, IsRound, place_on, weight_of_cell, weight_on};
ghost use Rattle.acas_step.specs.Sizes.{altitude_gap, greatest_weight, rate_gap};

use self::End::{Lower, Upper};
use acas_base::Model;
use acas_grid::{Axis, Grid, Point, Vertex};
use acas_units::GREATEST_VERTICES;

/// A vertex by its number, with its weight.
#[derive(Clone, Copy, PartialEq, Eq)]
pub struct Corner {
    pub vertex: u32,
    pub weight: i128,
}

/// The eight corners of a cell, lower before upper and the altitude outermost, and what their weights sum to.
#[derive(Clone, Copy, PartialEq, Eq)]
pub struct CornerSet {
    pub corners: [Corner; 8],
    pub total: i128,
}

// One of the two ends of a cell on an axis.
#[derive(Clone, Copy)]
enum End {
    Lower,
    Upper,
}

/// The cell of an axis that holds a number, and the weights of its two ends there: the distance to the other end.
#[derive(Clone, Copy)]
pub struct Ends {
    pub cell: u32,
    pub lower: u64,
    pub upper: u64,
}

/// The ends on the three axes.
#[derive(Clone, Copy)]
pub struct Cell {
    pub h: Ends,
    pub v0: Ends,
    pub v1: Ends,
}

// The ends of the cell that begins at a place.
fn ends_at(axis: &Axis, cell: u32, x: i64) -> Ends
    requires { IsCell axis.now cell x }
    ensures { IsEnds axis.now x result }
{
    let upper = x.abs_diff(axis.value(cell));
    let lower = axis.value(cell + 1).abs_diff(x);
    Ends { cell, lower, upper }
}

fn ends_of(axis: &Axis, x: i64) -> Ends
    requires { IsBetweenEnds axis.now x }
    ensures { IsEnds axis.now x result }
{
    ends_at(axis, axis.cell_of(x), x)
}

// The place where the cell of a number begins, looked for from a place on that is likely near it.
fn place_near(axis: &Axis, near: u32, x: i64) -> u32
    requires { IsBetweenEnds axis.now x }
    ensures { IsCell axis.now result x }
{
    let last = axis.len() - 2;
    let mut place = near.min(last);
    while axis.value(place) > x {
        place -= 1;
    }
    while place < last && axis.value(place + 1) <= x {
        place += 1;
    }
    place
}

fn ends_near(axis: &Axis, near: u32, x: i64) -> Ends
    requires { IsBetweenEnds axis.now x }
    ensures { IsEnds axis.now x result }
{
    ends_at(axis, place_near(axis, near, x), x)
}

// The cell that holds a point of the grid.
pub(crate) fn cell_of(grid: &Grid, point: Point) -> Cell
    requires grid { IsGrid grid.now }
    requires inside { IsInside grid.now point }
    ensures round { IsRound grid.now point result }
    ensures fits { FitsGrid grid.now result }
{
    Cell {
        h: ends_of(&grid.h, point.h),
        v0: ends_of(&grid.v0, point.v0),
        v1: ends_of(&grid.v1, point.v1),
    }
}

// The same, looked for from a vertex on that is likely near the point.
pub fn cell_near(grid: &Grid, near: Vertex, point: Point) -> Cell
    requires grid { IsGrid grid.now }
    requires inside { IsInside grid.now point }
    ensures round { IsRound grid.now point result }
    ensures fits { FitsGrid grid.now result }
{
    Cell {
        h: ends_near(&grid.h, near.i, point.h),
        v0: ends_near(&grid.v0, near.j, point.v0),
        v1: ends_near(&grid.v1, near.k, point.v1),
    }
}

fn place_on(ends: Ends, end: End) -> u32
    requires { ends.cell < GREATEST_VERTICES }
    ensures { result ≡ place_on ends end }
{
    match end {
        Lower => ends.cell,
        Upper => ends.cell + 1,
    }
}

fn weight_on(ends: Ends, end: End) -> u64
    ensures { result ≡ weight_on ends end }
{
    match end {
        Lower => ends.lower,
        Upper => ends.upper,
    }
}

pub fn product(h: u64, v0: u64, v1: u64) -> u64
    requires h { h ≤ altitude_gap }
    requires v0 { v0 ≤ rate_gap }
    requires v1 { v1 ≤ rate_gap }
    ensures value { result ≡ h * v0 * v1 }
    ensures small { result ≤ greatest_weight }
{
    h * v0 * v1
}

// The corner at these ends of the three axes.
fn corner_at(grid: &Grid, cell: &Cell, h: End, v0: End, v1: End) -> Corner
    requires { FitsGrid grid.now cell.now }
    ensures { IsCorner grid.now cell.now h v0 v1 result }
{
    let vertex = Vertex {
        i: place_on(cell.h, h),
        j: place_on(cell.v0, v0),
        k: place_on(cell.v1, v1),
    };
    let weight = product(
        weight_on(cell.h, h),
        weight_on(cell.v0, v0),
        weight_on(cell.v1, v1),
    );
    Corner {
        vertex: grid.vertex_number(vertex),
        weight: i128::from(weight),
    }
}

// What the weights of the corners sum to: the product of the gaps.
fn weight_of(cell: &Cell) -> u64
    requires h { cell.now.h.lower + cell.now.h.upper ≤ altitude_gap }
    requires v0 { cell.now.v0.lower + cell.now.v0.upper ≤ rate_gap }
    requires v1 { cell.now.v1.lower + cell.now.v1.upper ≤ rate_gap }
    ensures value { result ≡ weight_of_cell cell.now }
    ensures light { result ≤ greatest_weight }
{
    product(
        cell.h.lower + cell.h.upper,
        cell.v0.lower + cell.v0.upper,
        cell.v1.lower + cell.v1.upper,
    )
}

// The same in 128 bits.
fn total_of(cell: &Cell) -> i128
    requires h { cell.now.h.lower + cell.now.h.upper ≤ altitude_gap }
    requires v0 { cell.now.v0.lower + cell.now.v0.upper ≤ rate_gap }
    requires v1 { cell.now.v1.lower + cell.now.v1.upper ≤ rate_gap }
    ensures value { result ≡ pos (weight_of_cell cell.now) }
    ensures light { weight_of_cell cell.now ≤ greatest_weight }
{
    i128::from(weight_of(cell))
}

// The eight corners of a cell, for each point that it holds.
pub fn corner_set(grid: &Grid, cell: &Cell) -> CornerSet
    requires grid { IsGrid grid.now }
    requires fits { FitsGrid grid.now cell.now }
    ensures corners { (s : Point) → IsRound grid.now s cell.now
        → AreCorners grid.now s result.corners result.total }
    ensures sums { (s : Point) → IsRound grid.now s cell.now
        → IsInterpolation grid.now s result.corners result.total }
    ensures weights { (s : Point) → IsRound grid.now s cell.now
        → IsWeighting grid.now result.corners result.total }
{
    CornerSet {
        corners: [
            corner_at(grid, cell, Lower, Lower, Lower),
            corner_at(grid, cell, Lower, Lower, Upper),
            corner_at(grid, cell, Lower, Upper, Lower),
            corner_at(grid, cell, Lower, Upper, Upper),
            corner_at(grid, cell, Upper, Lower, Lower),
            corner_at(grid, cell, Upper, Lower, Upper),
            corner_at(grid, cell, Upper, Upper, Lower),
            corner_at(grid, cell, Upper, Upper, Upper),
        ],
        total: total_of(cell),
    }
}

/// The eight corners of the cell that holds a point inside the grid, lower before upper, the altitude outermost. A corner's
/// weight is the product of three: on each axis, the distance from the point to the cell's other end. The total is the
/// product of the cell's three gaps.
pub fn corners(model: &Model, point: Point) -> CornerSet
    requires { IsInside model.now.grid point }
    ensures corners { AreCorners model.now.grid point result.corners result.total }
    ensures sums { IsInterpolation model.now.grid point result.corners result.total }
    ensures weights { IsWeighting model.now.grid result.corners result.total }
{
    let grid = model.grid();
    corner_set(grid, &cell_of(grid, point))
}
