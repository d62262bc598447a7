//! The two sides of a layer's pairs, and where the states of an advisory stand in it.
ghost use Rattle.std.specs.Prelude.{◌≡◌, ◌+◌, ◌*◌, ◌<◌, ◌≤◌};
ghost use Rattle.acas_spec.specs.Model.{states, vertices};

use acas_grid::Grid;

/// One of the two values of a pair.
#[derive(Clone, Copy)]
pub enum Side {
    Upper,
    Lower,
}

/// The number of the first state of an advisory.
pub fn first_state(grid: &Grid, advisory: u8) -> usize
    requires { advisory < grid.now.advisories }
    ensures value { result ≡ advisory * vertices grid.now }
    ensures room { result + vertices grid.now ≤ states grid.now }
{
    usize::from(advisory) * grid.vertices() as usize
}
