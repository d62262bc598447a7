//! What the means over a layer are formed of.
use acas_base::Model;
use acas_means::Reach;
use acas_step_stencils::Stencils;
use acas_units::Pair;

/// A model with its stencils, and the layer below with its reach.
#[derive(Clone, Copy)]
pub(crate) struct MeansOver<'a> {
    pub(crate) model: &'a Model,
    pub(crate) stencils: &'a Stencils,
    pub(crate) below: &'a [Pair],
    pub(crate) reach: Reach,
}
