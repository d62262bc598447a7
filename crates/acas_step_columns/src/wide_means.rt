//! Both means of a layer in 128 bits, where its values are too large for sums of 64 bits: those of both sides at once, raised so that
//! none is below 0, by the stencils of a model.
ghost use Rattle.std.specs.Prelude.{◌≡◌, ◌+◌, ◌*◌, ◌^◌, ◌<◌, ◌≤◌, length};
ghost use Rattle.acas_grid.specs.States as numbers;
ghost use Rattle.acas_means.specs.Columns.{AreMeansIn, vertex_in};
ghost use Rattle.acas_step_columns.specs.ColumnSums.{HasColumn};
ghost use Rattle.acas_step_narrow.specs.Narrow.{AreRaisedSums, IsRaisedPoint};
ghost use Rattle.acas_step_narrow.specs.WideSums.{as_raised};
ghost use Rattle.acas_step_stencils.specs.Stencils.{point_from};

use crate::means_over::MeansOver;
use acas_means::{column_count, first_state};
use acas_step::sigma_count;
use acas_step_narrow::{
    Raised, WIDE_SIZE, WideSums, corner_sums, down_wide, lowered, narrow_weight, up_wide,
};
use acas_step_stencils::StencilKey;
use acas_units::{GREATEST_TOTAL_WEIGHT, Pair};

// Both sides at the point to which a sigma point leads from a vertex of a column.
fn wide_point(over: &MeansOver<'_>, key: StencilKey, i: u32) -> Raised
    requires column { HasColumn over.now key.column key.advisory }
    requires place { i < length over.now.model.now.grid.h }
    requires sigma { key.sigma < length over.now.model.now.sigmas }
    requires size { over.now.reach.size ≤ WIDE_SIZE }
    ensures { let m = over.now.model.now in
        IsRaisedPoint m over.now.below.now over.now.reach.size key.advisory (point_from m key i) result }
{
    let grid = over.model.grid();
    let below = over.below;
    let size = over.reach.size;
    let at = over.stencils.unit_cell(over.model, key, i);
    let first = first_state(grid, key.advisory);
    let row = grid.v1.len() as usize;
    let plane = column_count(grid) as usize;
    let place = first + at.base as usize;
    let sums = corner_sums(below, place, row, plane, &at.cell, size);
    Raised {
        upper: up_wide(sums.upper, at.divisor),
        lower: down_wide(sums.lower, at.divisor),
    }
}

// Sums with a point by its weight.
fn with_point(sums: WideSums, weight: u64, point: Raised) -> WideSums
    requires weight { weight ≤ GREATEST_TOTAL_WEIGHT }
    requires upper { sums.upper ≤ 2 ^ 100 }
    requires lower { sums.lower ≤ 2 ^ 100 }
    ensures upper { result.upper ≡ sums.upper + weight * point.upper }
    ensures lower { result.lower ≡ sums.lower + weight * point.lower }
{
    WideSums {
        upper: sums.upper + u128::from(weight) * u128::from(point.upper),
        lower: sums.lower + u128::from(weight) * u128::from(point.lower),
    }
}

// The sums of both sides over all points to which a second leads from a vertex of a column under an advisory.
fn wide_sums(over: &MeansOver<'_>, column: u32, i: u32, advisory: u8) -> WideSums
    requires column { HasColumn over.now column advisory }
    requires place { i < length over.now.model.now.grid.h }
    requires size { over.now.reach.size ≤ WIDE_SIZE }
    ensures { let m = over.now.model.now in
        let x = numbers.vertex_at m.grid (vertex_in m.grid column i) in
        AreRaisedSums m over.now.below.now over.now.reach.size x advisory (length m.sigmas) (as_raised result) }
{
    let mut sums = WideSums { upper: 0, lower: 0 };
    for sigma in 0..sigma_count(over.model) {
        let weight = narrow_weight(over.model, sigma);
        let key = StencilKey {
            column,
            advisory,
            sigma,
        };
        let point = wide_point(over, key, i);
        sums = with_point(sums, weight, point);
    }
    sums
}

/// Both means at a vertex of a column under an advisory, where no value of the layer below is too large for sums of 128 bits.
pub(crate) fn wide_means(over: &MeansOver<'_>, column: u32, i: u32, advisory: u8) -> Pair
    requires column { HasColumn over.now column advisory }
    requires place { i < length over.now.model.now.grid.h }
    requires size { over.now.reach.size ≤ WIDE_SIZE }
    ensures { AreMeansIn over.now.model.now over.now.below.now column i advisory result }
{
    let _ = over.model.grid();
    let sums = wide_sums(over, column, i, advisory);
    let total = over.stencils.total;
    let size = over.reach.size;
    Pair {
        upper: lowered(up_wide(sums.upper, total), size),
        lower: lowered(down_wide(sums.lower, total), size),
    }
}
