//! The columns of a grid: the vertices that have the same rates, altitude by altitude.
ghost use Rattle.std.specs.Prelude.{◌≡◌, ◌*◌, ◌<◌, length};
ghost use Rattle.acas_spec.specs.Model.{states, vertices};
ghost use Rattle.acas_grid.specs.Grid.{state_number};
ghost use Rattle.acas_means.specs.Columns.{columns, vertex_in};

use acas_grid::Grid;

/// How many columns of vertices a grid has: one for each own rate and intruder rate.
pub fn column_count(grid: &Grid) -> u32
    ensures { result ≡ columns grid.now }
{
    grid.v0.len() * grid.v1.len()
}

/// The number of the vertex of a column at a place of the altitudes.
pub fn vertex_in_column(grid: &Grid, column: u32, i: u32) -> u32
    requires column { column < columns grid.now }
    requires place { i < length grid.now.h }
    ensures value { result ≡ vertex_in grid.now column i }
    ensures below { result < vertices grid.now }
{
    // Opens the axes: there are so few vertices that their numbers are small.
    let _ = grid.vertices();
    i * column_count(grid) + column
}

/// The number of a state, where the number of the grid's vertices is at hand.
pub fn state_among(grid: &Grid, width: u32, present: u8, vertex: u32) -> u32
    requires width { width ≡ vertices grid.now }
    requires present { present < grid.now.advisories }
    requires vertex { vertex < vertices grid.now }
    ensures value { result ≡ state_number grid.now present vertex }
    ensures below { result < states grid.now }
{
    // Opens the axes: there are so few vertices that the numbers of states are small.
    let _ = grid.vertices();
    u32::from(present) * width + vertex
}
