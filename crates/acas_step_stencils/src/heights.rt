//! How far the altitudes of a grid are above the first one, in a unit: a climb is added to one of them, and the cell that it leads to is
//! found among them. Where the gaps between them are all the same, it follows from the climb in gaps, and is not looked for.
ghost use Rattle.std.specs.Prelude.{◌≡◌, ℕ, ◌+◌, ◌-◌, ◌<◌, ◌≤◌, ℤ, pos, ◌+ℤ◌, unsigned_abs, List, length, get_or, IfOk};
ghost use Rattle.std.specs.Int.{int_max, int_min};
ghost use Rattle.acas_spec.specs.Limits.{IsGrid};
ghost use Rattle.acas_step_stencils.specs.Heights.{AreHeights, IsEvenGap, IsHeightCell, IsInGaps, IsLedTo};
ghost use Rattle.acas_step_stencils.specs.Units.{DividesGaps};

use crate::units::{gap_at, in_unit};
use acas_grid::Grid;
use acas_units::GREATEST_VERTICES;
use std::alloc::{AllocError, Global};

/// A place of the altitudes, and how far above it a height is, in the unit of the heights.
#[derive(Clone, Copy)]
pub(crate) struct HeightPlace {
    pub place: u32,
    pub offset: u32,
}

/// A climb in gaps of one size: how many, rounded down, and what is left above them, in the unit of the heights.
#[derive(Clone, Copy)]
pub(crate) struct ClimbInGaps {
    pub gaps: i32,
    pub rest: u32,
}

// Writes how far the altitudes of a grid are above the first one, in a unit that divides their gaps.
fn fill_heights(grid: &Grid, unit: u64, heights: &mut [u32])
    requires grid { IsGrid grid.now }
    requires some { 0 < unit }
    requires gaps { DividesGaps grid.now.h unit }
    requires count { length heights.old ≡ length grid.now.h }
    requires first { get_or heights.old 0 0 ≡ 0 }
    ensures count { length heights.new ≡ length grid.now.h }
    ensures heights { AreHeights grid.now.h unit heights.new }
{
    for place in 1..grid.h.len() {
        let below = place - 1;
        let gap = in_unit(gap_at(&grid.h, below) as u32, unit);
        heights[place as usize] = heights[below as usize] + gap;
    }
}

/// How far the altitudes of a grid are above the first one, in a unit that divides their gaps. It fails only for want of memory.
pub(crate) fn heights_of(alloc: Global, grid: &Grid, unit: u64) -> Result<Vec<u32>, AllocError>
    requires grid { IsGrid grid.now }
    requires some { 0 < unit }
    requires gaps { DividesGaps grid.now.h unit }
    ensures { IfOk result (λ heights. AreHeights grid.now.h unit heights.items) }
{
    let mut heights = vec![in alloc; 0u32; grid.h.len() as usize]?;
    fill_heights(grid, unit, &mut heights);
    Ok(heights)
}

/// The height after a climb from a place, or that of the nearer end.
#[tactic(auto, using(std::proofs::lemmas::Int::clamps))]
pub(crate) fn height_after(heights: &[u32], place: u32, climb: i32) -> u32
    requires { place < length heights.now }
    ensures { let last = get_or heights.now (length heights.now - 1) 0 in
        pos result ≡ int_max (pos 0) (int_min (pos (get_or heights.now place 0) +ℤ climb) (pos last)) }
{
    let last = i64::from(heights[heights.len() - 1]);
    let height = i64::from(heights[place as usize]) + i64::from(climb);
    height.min(last).max(0) as u32
}

/// The place where the cell of a height begins, looked for from a place on that is likely near it.
pub(crate) fn height_place(heights: &[u32], near: u32, height: u32) -> u32
    requires some { 2 ≤ length heights.now }
    requires short { length heights.now ≤ GREATEST_VERTICES }
    requires first { get_or heights.now 0 0 ≤ height }
    requires last { height ≤ get_or heights.now (length heights.now - 1) 0 }
    ensures { IsHeightCell heights.now result height }
{
    let last = heights.len() as u32 - 2;
    let mut place = near.min(last);
    while heights[place as usize] > height {
        place -= 1;
    }
    while place < last && heights[place as usize + 1] <= height {
        place += 1;
    }
    place
}

/// The gap from each height to the next where it is the same everywhere, and 0 where it is not.
pub(crate) fn even_gap(heights: &[u32]) -> u32
    requires some { 2 ≤ length heights.now }
    requires short { length heights.now ≤ GREATEST_VERTICES }
    ensures even { IsEvenGap heights.now result }
    ensures found { (gap : ℕ) → 0 < gap → IsEvenGap heights.now gap → result ≡ gap }
{
    let gap = heights[1];
    for place in 0..heights.len() {
        if u64::from(heights[place]) != place as u64 * u64::from(gap) {
            return 0;
        }
    }
    gap
}

/// A climb in gaps, of at most 4,000,000 units up or down. A gap of 0 stands for none.
pub(crate) fn climb_in_gaps(climb: i32, gap: u32) -> ClimbInGaps
    requires { unsigned_abs climb ≤ 4_000_000 }
    ensures { IsInGaps gap climb result }
{
    if gap == 0 {
        return ClimbInGaps { gaps: 0, rest: 0 };
    }
    let whole = i64::from(climb);
    let size = i64::from(gap);
    ClimbInGaps {
        gaps: whole.div_euclid(size) as i32,
        rest: whole.rem_euclid(size) as u32,
    }
}

/// The place of the height after a climb from a place, or of that of the nearer end, looked for among the heights.
pub(crate) fn place_by_search(heights: &[u32], i: u32, climb: i32) -> HeightPlace
    requires some { 2 ≤ length heights.now }
    requires short { length heights.now ≤ GREATEST_VERTICES }
    requires first { get_or heights.now 0 0 ≡ 0 }
    requires place { i < length heights.now }
    ensures { (x : ℕ) × IsLedTo heights.now i climb x result }
{
    let height = height_after(heights, i, climb);
    let place = height_place(heights, i, height);
    HeightPlace {
        place,
        offset: height - heights[place as usize],
    }
}

// The same among so many heights with a gap of one size, by the climb in gaps.
fn place_by_gaps(count: u32, gap: u32, i: u32, climb: ClimbInGaps) -> HeightPlace
    requires some { 2 ≤ count }
    requires short { count ≤ GREATEST_VERTICES }
    requires place { i < count }
    requires small { unsigned_abs climb.gaps ≤ 4_000_000 }
    ensures { (heights : List ℕ) (z : ℤ) → length heights ≡ count → 0 < gap → IsEvenGap heights gap
        → IsInGaps gap z climb → (x : ℕ) × IsLedTo heights i z x result }
{
    let place = i as i32 + climb.gaps;
    if place < 0 {
        return HeightPlace {
            place: 0,
            offset: 0,
        };
    }
    if place as u32 >= count - 1 {
        return HeightPlace {
            place: count - 2,
            offset: gap,
        };
    }
    HeightPlace {
        place: place as u32,
        offset: climb.rest,
    }
}

/// The place of the height after a climb from a place, or of that of the nearer end: by the climb in gaps where there is a gap of one
/// size, and otherwise looked for.
pub(crate) fn place_after(
    heights: &[u32],
    gap: u32,
    i: u32,
    climb: i32,
    in_gaps: ClimbInGaps,
) -> HeightPlace
    requires some { 2 ≤ length heights.now }
    requires short { length heights.now ≤ GREATEST_VERTICES }
    requires first { get_or heights.now 0 0 ≡ 0 }
    requires even { IsEvenGap heights.now gap }
    requires place { i < length heights.now }
    requires climb { IsInGaps gap climb in_gaps }
    ensures { (x : ℕ) × IsLedTo heights.now i climb x result }
{
    if gap == 0 {
        return place_by_search(heights, i, climb);
    }
    place_by_gaps(heights.len() as u32, gap, i, in_gaps)
}
