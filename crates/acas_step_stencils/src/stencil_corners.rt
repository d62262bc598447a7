//! Where a sigma point leads, by the stencils of a model.
ghost use Rattle.acas_step_stencils.specs.Stencils.{AreUsable};

use crate::stencils::Stencils;
use acas_base::Model;
use acas_step::{CornerSet, LedTo};

impl LedTo for Stencils {
    ghost serves = { λ stencils m. AreUsable m stencils };

    fn corners_led_to(&self, model: &Model, vertex: u32, advisory: u8, sigma: u32) -> CornerSet {
        self.corners(model, vertex, advisory, sigma)
    }
}
