//! The cost with no second to go.
ghost use Rattle.std.specs.Prelude.{◌≡◌, ◌<◌};
ghost use Rattle.acas_spec.specs.Axis.{IsBetween};
ghost use Rattle.acas_spec.specs.Model.{vertices};
ghost use Rattle.acas_process.specs.Cost.{terminal_cost};
ghost use Rattle.acas_grid.specs.States as numbers;

use acas_base::Model;
use acas_grid::vertex_at;
use acas_units::{GREATEST_COST, LEAST_COST};

/// The cost of a vertex at the end, in units: that of contact where the altitude is at most half the puck's height away, and 0
/// elsewhere.
pub fn terminal(model: &Model, vertex: u32) -> i64
    requires { vertex < vertices model.now.grid }
    ensures value { result ≡ terminal_cost model.now (numbers.vertex_at model.now.grid vertex) }
    ensures limits { IsBetween LEAST_COST GREATEST_COST result }
{
    let grid = model.grid();
    let place = vertex_at(grid, vertex).i;
    if grid.h.value(place).abs() <= model.half() {
        return model.contact();
    }
    0
}
