//! Vertices and states by their numbers.
ghost use Rattle.std.specs.Prelude.{◌≡◌, ◌<◌};
ghost use Rattle.acas_spec.specs.Model.{states, vertices};
ghost use Rattle.acas_grid.specs.Grid.{IsVertex, vertex_number};
ghost use Rattle.acas_grid.specs.States as numbers;

use crate::grid::Grid;
use acas_spec::Vertex;

/// The vertex of a number below the count of vertices.
pub fn vertex_at(grid: &Grid, number: u32) -> Vertex
    requires { number < vertices grid.now }
    ensures value { result ≡ numbers.vertex_at grid.now number }
    ensures vertex { IsVertex grid.now result }
    ensures number { vertex_number grid.now result ≡ number }
{
    grid.vertex_of(number)
}

/// The present advisory of a state by its number, which is below the count of states.
pub fn state_present(grid: &Grid, state: u32) -> u8
    requires { state < states grid.now }
    ensures value { result ≡ numbers.state_present grid.now state }
    ensures below { result < grid.now.advisories }
{
    // Opens the grid: it has so few advisories that the number fits.
    let _ = grid.states();
    (state / grid.vertices()) as u8
}

/// The vertex of a state by its number, which is below the count of states.
pub fn state_vertex(grid: &Grid, state: u32) -> Vertex
    requires { state < states grid.now }
    ensures value { result ≡ numbers.state_vertex grid.now state }
    ensures vertex { IsVertex grid.now result }
{
    vertex_at(grid, state % grid.vertices())
}
