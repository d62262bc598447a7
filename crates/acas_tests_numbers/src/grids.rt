//! Lists that are axes and lists that are none, and the numbers and cells of small grids.
ghost use Rattle.std.specs.Prelude.{◌≤◌};

use acas_grid::{Axis, AxisFault, Grid, Point, Vertex, state_present, state_vertex, vertex_at};
use std::alloc::Global;

// Whether a list of numbers has this fault, or none.
fn has_fault(alloc: Global, values: &[i64], fault: Option<AxisFault>) -> Option<bool> {
    let values = Vec::from_slice(alloc, values).ok()?;
    Some(Axis::new(values).err() == fault)
}

// Whether `count` numbers that go from 0 by `step` have this fault, or none.
fn steps_have_fault(alloc: Global, count: u8, step: i8, fault: Option<AxisFault>) -> Option<bool> {
    let mut values = Vec::new(alloc);
    for place in 0..count {
        values.push(i64::from(place) * i64::from(step)).ok()?;
    }
    Some(Axis::new(values).err() == fault)
}

// Lists of numbers, and what is wrong with each.
const LISTS: [(&[i64], Option<AxisFault>); 9] = [
    (&[], Some(AxisFault::TooShort)),
    (&[7], Some(AxisFault::TooShort)),
    (&[-1, 0], None),
    (&[0, 0], Some(AxisFault::NotRising { place: 1 })),
    (&[3, 2, 1], Some(AxisFault::NotRising { place: 1 })),
    (&[1, 2, 2], Some(AxisFault::NotRising { place: 2 })),
    (
        &[1, 2, 3, -4, 5, 0],
        Some(AxisFault::NotRising { place: 3 }),
    ),
    (&[i64::MIN, i64::MAX], None),
    (
        &[i64::MAX, i64::MIN],
        Some(AxisFault::NotRising { place: 1 }),
    ),
];

// How many numbers there are and the step between them, and what is wrong with the list.
const LENGTHS: [(u8, i8, Option<AxisFault>); 6] = [
    (128, 1, None),
    (129, 1, None),
    (130, 1, Some(AxisFault::TooLong)),
    (129, 0, Some(AxisFault::NotRising { place: 1 })),
    (130, -1, Some(AxisFault::TooLong)),
    (1, -1, Some(AxisFault::TooShort)),
];

#[test]
fn axes_have_from_2_to_129_numbers_that_rise(rt: HostRuntime) {
    for (values, fault) in LISTS {
        assert!(rt; has_fault(rt.alloc(), values, fault) == Some(true));
    }
    for (count, step, fault) in LENGTHS {
        assert!(rt; steps_have_fault(rt.alloc(), count, step, fault) == Some(true));
    }
}

fn axis_of(alloc: Global, values: &[i64]) -> Option<Axis> {
    Axis::new(Vec::from_slice(alloc, values).ok()?).ok()
}

const FOUR: &[i64] = &[-30, 0, 40, 100];

const SHORTEST: &[i64] = &[5, 6];

// The numbers of an axis, a number, the nearest on the axis, and the place where its cell begins.
const NEAREST: [(&[i64], i64, i64, u32); 13] = [
    (FOUR, i64::MIN, -30, 0),
    (FOUR, -31, -30, 0),
    (FOUR, -30, -30, 0),
    (FOUR, -1, -1, 0),
    (FOUR, 0, 0, 1),
    (FOUR, 39, 39, 1),
    (FOUR, 40, 40, 2),
    (FOUR, 99, 99, 2),
    (FOUR, 100, 100, 2),
    (FOUR, 101, 100, 2),
    (FOUR, i64::MAX, 100, 2),
    (SHORTEST, 5, 5, 0),
    (SHORTEST, 6, 6, 0),
];

// Whether a number is brought to this one on an axis, and has a cell that begins there; and whether the axis is as long as the list.
fn is_brought_to(alloc: Global, values: &[i64], x: i64, nearest: i64, cell: u32) -> Option<bool> {
    let axis = axis_of(alloc, values)?;
    let clamped = axis.clamp(x);
    let long = axis.len() as usize == values.len();
    Some(long && clamped == nearest && axis.cell_of(clamped) == cell)
}

#[test]
fn a_number_is_brought_to_an_axis_and_has_a_cell_there(rt: HostRuntime) {
    for (values, x, nearest, cell) in NEAREST {
        assert!(rt; is_brought_to(rt.alloc(), values, x, nearest, cell) == Some(true));
    }
}

fn grid_of(
    alloc: Global,
    h: &[i64],
    v0: &[i64],
    v1: &[i64],
    advisories: u32,
    horizon: u32,
) -> Option<Grid>
    requires advisories { advisories ≤ 16 }
    requires horizon { horizon ≤ 120 }
{
    Some(Grid {
        h: axis_of(alloc, h)?,
        v0: axis_of(alloc, v0)?,
        v1: axis_of(alloc, v1)?,
        advisories,
        horizon,
    })
}

// The number of a vertex, if it is one of the grid's.
fn number_of(grid: &Grid, vertex: Vertex) -> Option<u32> {
    if vertex.i < grid.h.len() && vertex.j < grid.v0.len() && vertex.k < grid.v1.len() {
        Some(grid.vertex_number(vertex))
    } else {
        None
    }
}

// The number of a state, if it is one of the grid's.
fn state_number_of(grid: &Grid, present: u8, vertex: u32) -> Option<u32> {
    if u32::from(present) < grid.advisories && vertex < grid.vertices() {
        Some(grid.state_number(present, vertex))
    } else {
        None
    }
}

// The present advisory and the places of the vertex of a state, if it is one of the grid's.
fn parts_of(grid: &Grid, state: u32) -> Option<(u8, u32, u32, u32)> {
    if state < grid.states() {
        let vertex = state_vertex(grid, state);
        Some((state_present(grid, state), vertex.i, vertex.j, vertex.k))
    } else {
        None
    }
}

fn four_by_three_by_two(alloc: Global) -> Option<Grid> {
    grid_of(
        alloc,
        &[-120000, -80400, 0, 120000],
        &[0, 1500, 3000],
        &[0, 3000],
        4,
        30,
    )
}

fn is_counted(grid: &Grid) -> bool {
    let altitudes = grid.h.len() == 4 && grid.h.value(1) == -80400;
    altitudes && grid.vertices() == 24 && grid.states() == 96 && grid.entries() == 2976
}

// The places of a vertex, and its number, if it is one of the grid's.
const VERTICES: [(u32, u32, u32, Option<u32>); 8] = [
    (0, 0, 0, Some(0)),
    (0, 0, 1, Some(1)),
    (0, 1, 0, Some(2)),
    (1, 0, 0, Some(6)),
    (2, 1, 1, Some(15)),
    (3, 2, 1, Some(23)),
    (4, 0, 0, None),
    (0, 3, 0, None),
];

// Whether a number has a vertex, which has that number.
fn number_has_vertex(grid: &Grid, number: u32) -> bool {
    if number >= grid.vertices() {
        return false;
    }
    let vertex = grid.vertex_of(number);
    number_of(grid, vertex) == Some(number) && vertex_at(grid, number) == vertex
}

// Whether vertices have their numbers, and the 24 numbers their vertices.
fn vertices_have_numbers(grid: &Grid) -> bool {
    for (i, j, k, number) in VERTICES {
        if number_of(grid, Vertex { i, j, k }) != number {
            return false;
        }
    }
    for number in 0..24 {
        if !number_has_vertex(grid, number) {
            return false;
        }
    }
    true
}

// The present advisory and the vertex of a state, and its number, if it is one of the grid's.
const STATES: [(u8, u32, Option<u32>); 4] = [
    (0, 23, Some(23)),
    (1, 0, Some(24)),
    (3, 23, Some(95)),
    (4, 0, None),
];

// A state, and its present advisory and the places of its vertex, if it is one of the grid's.
const PARTS: [(u32, Option<(u8, u32, u32, u32)>); 5] = [
    (0, Some((0, 0, 0, 0))),
    (23, Some((0, 3, 2, 1))),
    (24, Some((1, 0, 0, 0))),
    (95, Some((3, 3, 2, 1))),
    (96, None),
];

// Whether states have their numbers, and numbers the parts of their states.
fn states_have_numbers(grid: &Grid) -> bool {
    for (present, vertex, number) in STATES {
        if state_number_of(grid, present, vertex) != number {
            return false;
        }
    }
    for (state, parts) in PARTS {
        if parts_of(grid, state) != parts {
            return false;
        }
    }
    true
}

// Whether a grid is counted, and its vertices and its states have their numbers.
fn is_numbered(alloc: Global) -> Option<[bool; 3]> {
    let grid = four_by_three_by_two(alloc)?;
    Some([
        is_counted(&grid),
        vertices_have_numbers(&grid),
        states_have_numbers(&grid),
    ])
}

#[test]
fn a_grid_is_counted_and_its_vertices_and_states_have_numbers(rt: HostRuntime) {
    assert!(rt; is_numbered(rt.alloc()) == Some([true; 3]));
}

fn two_by_two_by_two(alloc: Global) -> Option<Grid> {
    grid_of(alloc, &[0, 3600], &[0, 600], &[0, 600], 2, 2)
}

fn three_by_four_by_three(alloc: Global) -> Option<Grid> {
    grid_of(alloc, &[-5, 0, 5], &[-1, 0, 1, 2], &[0, 10, 20], 16, 120)
}

fn point(h: i64, v0: i64, v1: i64) -> Point {
    Point { h, v0, v1 }
}

// Whether there is a grid, and a point is brought to another in it, which is in the cell that begins at a vertex.
fn is_brought_into(
    grid: Option<Grid>,
    from: Point,
    to: Point,
    cell: (u32, u32, u32),
) -> Option<bool> {
    let grid = grid?;
    let inside = grid.clamp(from);
    let vertex = grid.locate(inside);
    Some(inside == to && (vertex.i, vertex.j, vertex.k) == cell)
}

#[test]
fn a_point_is_brought_into_a_grid_and_has_a_cell_there(rt: HostRuntime) {
    // One second from 30 ft with the intruder at 600 ft/min would pass the upper end.
    let small = two_by_two_by_two(rt.alloc());
    let met = is_brought_into(small, point(4800, 0, 600), point(3600, 0, 600), (0, 0, 0));
    assert!(rt; met == Some(true), "a point beyond the grid");
    let wide = three_by_four_by_three(rt.alloc());
    let met = is_brought_into(wide, point(1, 2, 9), point(1, 2, 9), (1, 2, 0));
    assert!(rt; met == Some(true), "a point in the grid");
}
