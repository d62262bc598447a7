//! The units in which lengths on the axes of a grid are counted. They divide the gaps of the axes, and so keep the numbers small.
ghost use Rattle.std.specs.Prelude.{◌≡◌, ℕ, ◌+◌, ◌*◌, ◌<◌, ◌≤◌, length};
ghost use Rattle.std.specs.Int.{IsGcd, ◌∣◌};
ghost use Rattle.acas_process.specs.Axis.{gap};
ghost use Rattle.acas_step_stencils.specs.Units.{AreGapsWithin, AreUnits, DivideGaps, DividesGaps, IsGapIn};

use acas_frac::gcd;
use acas_grid::{Axis, Grid};

/// A length above 0 on each axis, in ticks or ft/min, in which offsets and gaps are counted.
#[derive(Clone, Copy)]
pub struct Units {
    pub h: u64,
    pub v0: u64,
    pub v1: u64,
}

/// The greatest common divisor, where the second number is above 0.
pub(crate) fn common(a: u64, b: u64) -> u64
    requires { 0 < b }
    ensures divisor { IsGcd a b result }
    ensures some { 0 < result }
{
    gcd(u128::from(a), u128::from(b)) as u64
}

/// How often a unit goes into a length that it divides.
pub(crate) fn in_unit(length: u32, unit: u64) -> u32
    requires some { 0 < unit }
    requires divides { unit ∣ length }
    ensures { unit * result ≡ length }
{
    (u64::from(length) / unit) as u32
}

/// The gap from a place of an axis to the next, in ticks or ft/min.
pub(crate) fn gap_at(axis: &Axis, place: u32) -> u64
    requires { place + 1 < length axis.now }
    ensures { result ≡ gap axis.now place }
{
    let lower = axis.value(place);
    axis.value(place + 1).abs_diff(lower)
}

/// The gap from a place of an axis to the next in a unit that divides it, and 1 at the last place.
pub(crate) fn gap_in(axis: &Axis, unit: u64, place: u32) -> u64
    requires some { 0 < unit }
    requires gaps { DividesGaps axis.now unit }
    requires place { place < length axis.now }
    ensures gap { IsGapIn axis.now unit place result }
    ensures small { (most : ℕ) → AreGapsWithin axis.now most → 0 < most → result ≤ most }
{
    let count = axis.len();
    if place + 1 == count {
        return 1;
    }
    gap_at(axis, place) / unit
}

// A unit that divides the gaps of an axis.
fn axis_unit(axis: &Axis) -> u64
    ensures some { 0 < result }
    ensures gaps { DividesGaps axis.now result }
{
    let last = axis.len() - 1;
    let mut unit = gap_at(axis, 0);
    for place in 1..last {
        unit = common(gap_at(axis, place), unit);
    }
    unit
}

/// Units that divide the gaps of a grid, in ticks or ft/min.
pub(crate) fn grid_units(grid: &Grid) -> Units
    ensures some { AreUnits result }
    ensures gaps { DivideGaps grid.now result }
{
    Units {
        h: axis_unit(&grid.h),
        v0: axis_unit(&grid.v0),
        v1: axis_unit(&grid.v1),
    }
}
