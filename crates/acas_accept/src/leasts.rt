//! The least lower values of the choices in a layer, found once for planes with the same choices.
ghost use Rattle.std.specs.Prelude.{◌≡◌, ◌<◌, List, length, IfOk, IsTrue};
ghost use Rattle.acas_spec.specs.Model.{ModelData, states};
ghost use Rattle.acas_units.specs.declared.pair.Pair.{Pair as PairData};
ghost use Rattle.acas_means.specs.Layer.{AreWithin};
ghost use Rattle.acas_means.specs.declared.layer.Side.{Side};
ghost use Rattle.acas_bounds.specs.Leasts.{AreLeasts};
ghost use Rattle.acas_bounds.specs.Planes.{IsPlane};
ghost use Rattle.acas_accept.specs.Leasts.{AreFound, HaveLeasts};

use acas_base::Model;
use acas_bounds::{Plane, fill_leasts, have_same_choices};
use acas_units::Pair;
use std::alloc::{AllocError, Global};

/// The least lower value of the choices at each vertex, and the present advisory whose choices they are; and whether the means of the
/// layer below are so near to 0 that they are found at all.
#[derive(Drop)]
pub(crate) struct Leasts {
    values: Vec<i64>,
    of: Option<u8>,
    are_near: bool,
}

impl Leasts {
    /// Room for a value at each vertex of a model, with none found.
    pub(crate) fn new(alloc: Global, model: &Model) -> Result<Leasts, AllocError>
        ensures { IfOk result (λ leasts. (means : List PairData) → HaveLeasts model.now means leasts) }
    {
        let vertices = model.grid().vertices() as usize;
        Ok(Leasts {
            values: vec![in alloc; 0i64; vertices]?,
            of: None,
            are_near: false,
        })
    }

    /// Has none found, and from now on means of which none exceeds a size, up or down.
    pub(crate) fn forget(&mut self, size: u64)
        ensures { (m : ModelData) (means other : List PairData) → HaveLeasts m means self.old
            → ((side : Side) → AreWithin size side other) → HaveLeasts m other self.new }
    {
        self.of = None;
        self.are_near = size <= 1 << 62;
    }

    // Whether they are those of the choices of a present advisory.
    fn are_of(&self, model: &Model, present: u8, means: &[Pair]) -> bool
        requires present { present < model.now.grid.advisories }
        requires have { HaveLeasts model.now means.now self.now }
        ensures { IsTrue result → AreLeasts model.now means.now present self.now.values.items }
    {
        match self.of {
            Some(of) => have_same_choices(model, of, present),
            None => false,
        }
    }

    /// Finds those of a plane with n seconds to go, by the means of the layer below, where there is one whose means are near to 0. It
    /// gives whether they are found.
    pub(crate) fn find(&mut self, model: &Model, n: u32, plane: &Plane, means: &[Pair]) -> bool
        requires plane { IsPlane model.now plane.now }
        requires means { length means.now ≡ states model.now.grid }
        requires have { HaveLeasts model.now means.now self.old }
        ensures have { HaveLeasts model.now means.now self.new }
        ensures found { IsTrue result → AreFound model.now n plane.now.present means.now self.new }
    {
        if n == 0 || !self.are_near {
            return false;
        }
        if !self.are_of(model, plane.present, means) {
            fill_leasts(model, plane, means, &mut self.values);
            self.of = Some(plane.present);
        }
        true
    }

    /// The values, by the numbers of the vertices.
    pub(crate) fn values(&self) -> &[i64]
        ensures { result.now ≡ self.now.values.items }
    {
        &self.values
    }
}
