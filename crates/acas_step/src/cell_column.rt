//! The column at the lower corner of a cell.
ghost use Rattle.std.specs.Prelude.{◌≡◌, ◌*◌, ◌<◌};
ghost use Rattle.acas_means.specs.Columns.{columns};
ghost use Rattle.acas_step.specs.Ends.{column_of};
ghost use Rattle.acas_step.specs.Ends.{FitsGrid};

use crate::cell::Cell;
use acas_grid::Grid;

/// The number of the column at the lower corner of a cell.
pub fn column_of_cell(grid: &Grid, cell: &Cell) -> u32
    requires { FitsGrid grid.now cell.now }
    ensures value { result ≡ column_of grid.now cell.now }
    ensures below { result < columns grid.now }
{
    cell.v0.cell * grid.v1.len() + cell.v1.cell
}
