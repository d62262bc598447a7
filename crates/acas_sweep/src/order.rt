//! The order in which a layer is written.
ghost use Rattle.std.specs.Prelude.{◌≡◌, ◌<◌};
ghost use Rattle.acas_spec.specs.Model.{vertices};
ghost use Rattle.acas_sweep.specs.Turns.{turn};

use acas_grid::Grid;
use acas_means::vertex_in_column;

/// The vertex that is written after so many others, where a layer is written column by column.
pub fn vertex_after(grid: &Grid, count: u32) -> u32
    requires { count < vertices grid.now }
    ensures turn { turn grid.now result ≡ count }
    ensures below { result < vertices grid.now }
{
    let altitudes = grid.h.len();
    vertex_in_column(grid, count / altitudes, count % altitudes)
}
