//! The numbers of a column in 64 bits, one of each side for each place of the altitudes: the values of a layer blended on both rates of
//! a cell, and the sums over no point.
ghost use Rattle.std.specs.Prelude.{◌≡◌, ℕ, ◌+◌, ◌*◌, ◌<◌, ◌≤◌, length};
ghost use Rattle.acas_spec.specs.Model.{vertices};
ghost use Rattle.acas_step.specs.Ends.{FitsGrid};
ghost use Rattle.acas_means.specs.Layer.{AreWithin};
ghost use Rattle.acas_means.specs.declared.layer.Side.TheVariants.{Upper, Lower};
ghost use Rattle.acas_step_narrow.specs.ColumnBlends.{AreBlends, AreBlendsWithin};
ghost use Rattle.acas_step_narrow.specs.Raised.{HasRoom, raised_in};

use crate::raised::{SideColumn, along_rates, rate_weights};
use acas_base::Model;
use acas_grid::Grid;
use acas_means::column_count;
use acas_step::{Cell, column_of_cell};
use acas_units::Pair;

/// Writes the values of a layer in millionths, raised by a size that none exceeds and blended on both rates of a cell, for each place of
/// the altitudes, where those of an advisory begin at `first`. It stands by itself, so that its loop has the registers.
#[inline(never)]
pub fn fill_blends(
    grid: &Grid,
    cell: &Cell,
    first: usize,
    by: u64,
    below: &[Pair],
    uppers: &mut SideColumn,
    lowers: &mut SideColumn,
)
    requires fits { FitsGrid grid.now cell.now }
    requires first { first + vertices grid.now ≤ length below.now }
    requires upper { AreWithin by Upper below.now }
    requires lower { AreWithin by Lower below.now }
    requires room { HasRoom (2 * by) cell.now }
    ensures blends { AreBlends grid.now cell.now first by below.now uppers.new lowers.new }
    ensures within { AreBlendsWithin grid.now cell.now by uppers.new lowers.new }
{
    let row = grid.v1.len() as usize;
    let columns = column_count(grid) as usize;
    let weights = rate_weights(cell, by);
    let mut at = first + column_of_cell(grid, cell) as usize;
    for i in 0..grid.h.len() {
        let blend = along_rates(below, at, row, &weights);
        uppers[i as usize] = blend.upper;
        lowers[i as usize] = blend.lower;
        at += columns;
    }
}

/// Writes the sums over no point, at each place of the altitudes.
pub fn clear_sums(model: &Model, uppers: &mut SideColumn, lowers: &mut SideColumn)
    ensures { (i : ℕ) → i < length model.now.grid.h
        → raised_in uppers.new lowers.new i ≡ record { upper = 0; lower = 0 } }
{
    for i in 0..model.grid().h.len() as usize {
        uppers[i] = 0;
        lowers[i] = 0;
    }
}
