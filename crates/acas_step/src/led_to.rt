//! What gives the corners of the cells to which a second leads.
ghost use Rattle.std.specs.Prelude.{◌<◌, length};
ghost use Rattle.acas_spec.specs.Model.{ModelData, vertices};
ghost use Rattle.acas_grid.specs.States as numbers;
ghost use Rattle.acas_process.specs.Step as process;
ghost use Rattle.acas_step.specs.Corners.{IsInterpolation, IsWeighting};

use crate::cell::CornerSet;
use acas_base::Model;

/// Gives the corners of the cells to which the sigma points lead within a second.
pub trait LedTo {
    /// It can be asked of a model.
    ghost serves: { Self → ModelData → Type 0 };

    /// The corners of the cell to which a sigma point leads from a vertex within a second under an advisory.
    fn corners_led_to(&self, model: &Model, vertex: u32, advisory: u8, sigma: u32) -> CornerSet
        requires serves { serves self.now model.now }
        requires vertex { vertex < vertices model.now.grid }
        requires advisory { advisory < model.now.grid.advisories }
        requires sigma { sigma < length model.now.sigmas }
        ensures sums { let x = numbers.vertex_at model.now.grid vertex in
            let s = process.moved model.now x advisory sigma in
            IsInterpolation model.now.grid s result.corners result.total }
        ensures weights { IsWeighting model.now.grid result.corners result.total };
}
