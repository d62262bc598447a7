//! The sums of a column in 64 bits: those of both sides over the points to which a second leads from each of its vertices under an
//! advisory, where no cell is too wide. A sigma point leads from all of them to the same rates, so that the values of the layer below
//! are blended there once for each altitude.
ghost use Rattle.std.specs.Prelude.{◌≡◌, ◌+◌, ◌*◌, ◌^◌, ◌<◌, true, List, length, IfSome};
ghost use Rattle.acas_spec.specs.Model.{states, total_weight, vertices};
ghost use Rattle.acas_grid.specs.States as numbers;
ghost use Rattle.acas_process.specs.Step as process;
ghost use Rattle.acas_step_columns.specs.ColumnSums.{HasColumn};
ghost use Rattle.acas_step_stencils.specs.Cells.{HoldsRates};
ghost use Rattle.acas_means.specs.Layer.{AreWithin};
ghost use Rattle.acas_step_narrow.specs.ColumnBlends.{AreBlends, AreBlendsWithin, AreColumnSums, AreSumsWithin};
ghost use Rattle.acas_step_narrow.specs.Narrow.{IsRaisedPoint};
ghost use Rattle.acas_step_narrow.specs.Raised.{AreRaisedWithin};
ghost use Rattle.acas_step_stencils.specs.Stencils.{HaveStencil, IsRise, point_from};
ghost use Rattle.acas_means.specs.declared.layer.Side.TheVariants.{Upper, Lower};
ghost use Rattle.acas_units.specs.declared.pair.Pair.{Pair};

use crate::means_over::MeansOver;
use acas_means::first_state;
use acas_step::{Cell, sigma_count};
use acas_step_narrow::{
    Raised, SideColumn, along_h, clear_sums, fill_blends, narrow_weight, quotient_down,
    quotient_up, with_point,
};
use acas_step_stencils::{Rise, StencilKey};

// Both sides at the point to which a sigma point leads from the vertex of a column at a place of the altitudes, where its cell is not
// too wide: by the rise of the column, and by the blends at the rates of a cell that holds the rates of the point.
fn point_in_column(
    over: &MeansOver<'_>,
    key: StencilKey,
    i: u32,
    rise: Rise,
    rates: &Cell,
    blend_uppers: &SideColumn,
    blend_lowers: &SideColumn,
) -> Option<Raised>
    requires stencil { HaveStencil over.now.model.now over.now.stencils.now key }
    requires place { i < length over.now.model.now.grid.h }
    requires rise { IsRise over.now.model.now over.now.stencils.now key rise }
    requires rates { let m = over.now.model.now in
        HoldsRates m.grid over.now.stencils.now.units (point_from m key i) rates.now }
    requires room { over.now.reach.widest * (2 * over.now.reach.size + 1) < 2 ^ 63 }
    requires within { let size = over.now.reach.size in
        AreBlendsWithin over.now.model.now.grid rates.now size blend_uppers.now blend_lowers.now }
    ensures within { IfSome result (AreRaisedWithin (2 * over.now.reach.size)) }
    ensures point { let m = over.now.model.now in
        let size = over.now.reach.size in
        (below : List Pair) → length below ≡ states m.grid → AreWithin size Upper below → AreWithin size Lower below
        → AreBlends m.grid rates.now (key.advisory * vertices m.grid) size below blend_uppers.now blend_lowers.now
        → IfSome result (IsRaisedPoint m below size key.advisory (point_from m key i)) }
{
    // Says what holds of each model.
    let _ = over.model.grid();
    let at = over.stencils.cell_at_rates(over.model, key, i, rise, rates);
    if at.divisor.by > over.reach.widest {
        return None;
    }
    let sums = along_h(blend_uppers, blend_lowers, at.cell.h);
    Some(Raised {
        upper: quotient_up(sums.upper, at.divisor),
        lower: quotient_down(sums.lower, at.divisor),
    })
}

// Adds the points to which a sigma point leads from the vertices of a column, by its weight, where no cell is too wide.
fn add_points(
    over: &MeansOver<'_>,
    key: StencilKey,
    rates: &Cell,
    blend_uppers: &SideColumn,
    blend_lowers: &SideColumn,
    uppers: &mut SideColumn,
    lowers: &mut SideColumn,
) -> bool
    requires stencil { HaveStencil over.now.model.now over.now.stencils.now key }
    requires rates { let m = over.now.model.now in
        let x = numbers.vertex_at m.grid key.column in
        HoldsRates m.grid over.now.stencils.now.units (process.moved m x key.advisory key.sigma) rates.now }
    requires room { over.now.reach.widest * (2 * over.now.reach.size + 1) < 2 ^ 63 }
    requires weights { total_weight over.now.model.now * (2 * over.now.reach.size + 1) < 2 ^ 63 }
    requires within { let size = over.now.reach.size in
        AreBlendsWithin over.now.model.now.grid rates.now size blend_uppers.now blend_lowers.now }
    requires sums { AreSumsWithin over.now.model.now over.now.reach.size key.sigma uppers.old lowers.old }
    ensures within { result ≡ true
        → AreSumsWithin over.now.model.now over.now.reach.size (key.sigma + 1) uppers.new lowers.new }
    ensures sums { let m = over.now.model.now in
        let size = over.now.reach.size in
        (below : List Pair) → length below ≡ states m.grid → AreWithin size Upper below → AreWithin size Lower below
        → AreBlends m.grid rates.now (key.advisory * vertices m.grid) size below blend_uppers.now blend_lowers.now
        → AreColumnSums m below size key.column key.advisory key.sigma uppers.old lowers.old
        → result ≡ true
        → AreColumnSums m below size key.column key.advisory (key.sigma + 1) uppers.new lowers.new }
{
    let grid = over.model.grid();
    let weight = narrow_weight(over.model, key.sigma);
    let rise = over.stencils.rise(over.model, key);
    for i in 0..grid.h.len() {
        match point_in_column(over, key, i, rise, rates, blend_uppers, blend_lowers) {
            Some(point) => {
                let place = i as usize;
                let sums = Raised {
                    upper: uppers[place],
                    lower: lowers[place],
                };
                let next = with_point(sums, weight, point);
                uppers[place] = next.upper;
                lowers[place] = next.lower;
            }
            None => return false,
        }
    }
    true
}

/// Writes the sums over all points to which a second leads from the vertices of a column under an advisory, and says whether no cell
/// is too wide for that.
pub(crate) fn fill_sums(
    over: &MeansOver<'_>,
    column: u32,
    advisory: u8,
    blend_uppers: &mut SideColumn,
    blend_lowers: &mut SideColumn,
    uppers: &mut SideColumn,
    lowers: &mut SideColumn,
) -> bool
    requires column { HasColumn over.now column advisory }
    requires weights { total_weight over.now.model.now * (2 * over.now.reach.size + 1) < 2 ^ 63 }
    ensures { let m = over.now.model.now in
        result ≡ true
        → AreColumnSums m over.now.below.now over.now.reach.size column advisory (length m.sigmas) uppers.new lowers.new }
{
    let grid = over.model.grid();
    let first = first_state(grid, advisory);
    clear_sums(over.model, uppers, lowers);
    for sigma in 0..sigma_count(over.model) {
        let key = StencilKey {
            column,
            advisory,
            sigma,
        };
        let corner = over.stencils.unit_cell(over.model, key, 0);
        if corner.divisor.by > over.reach.widest {
            return false;
        }
        fill_blends(
            grid,
            &corner.cell,
            first,
            over.reach.size,
            over.below,
            blend_uppers,
            blend_lowers,
        );
        if !add_points(
            over,
            key,
            &corner.cell,
            blend_uppers,
            blend_lowers,
            uppers,
            lowers,
        ) {
            return false;
        }
    }
    true
}
