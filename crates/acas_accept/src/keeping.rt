//! What keeps the layers of a table that is read: their advices alone, or all of them.
ghost use Rattle.std.specs.Prelude.{◌≡◌, ◌+◌, ◌≤◌, ℕ, List, length, IfOk};
ghost use Rattle.acas_spec.specs.Model.{ModelData, states};
ghost use Rattle.acas_base.specs.Advices.{AreAdvicesOf};
ghost use Rattle.acas_accept.specs.Keeping.{AreAdvicesBelow, AreAllowedBelow, AreLayersBelow, AreRead, KeepsLayer, MayBeChosen, StandFor};

use acas_base::{Advices, Layers, Model};
use acas_units::Pair;
use std::alloc::{AllocError, Global};

/// What keeps layers of a table, one after the other.
pub trait KeepsLayers: Sized + Drop {
    /// It was given so many layers of a table of a model.
    ghost was_given: { Self → ModelData → ℕ → Type 0 };

    /// What it keeps of so many layers is that of these bytes.
    ghost is_of: { Self → ModelData → List ℕ → ℕ → Type 0 };

    /// Nothing kept yet, and room for all layers of a table of a model.
    fn make(alloc: Global, model: &Model) -> Result<Self, AllocError>
        ensures given { IfOk result (λ made. was_given made model.now 0) }
        ensures of { IfOk result (λ made. (bytes : List ℕ) → is_of made model.now bytes 0) };

    /// Keeps of the layer with n seconds to go what is to be kept. It takes no memory.
    fn keep(&mut self, model: &Model, n: u32, pairs: &[Pair], advice: &[u8])
        requires n { n ≤ model.now.grid.horizon }
        requires pairs { length pairs.now ≡ states model.now.grid }
        requires advice { length advice.now ≡ states model.now.grid }
        requires allowed { MayBeChosen model.now n (states model.now.grid) advice.now }
        requires given { was_given self.old model.now n }
        ensures given { was_given self.new model.now (n + 1) }
        ensures of { (bytes : List ℕ) → AreRead model.now bytes n (states model.now.grid) pairs.now advice.now
            → is_of self.old model.now bytes n → is_of self.new model.now bytes (n + 1) };
}

impl KeepsLayers for Advices {
    ghost was_given = { λ a m count. AreAllowedBelow m count a };

    ghost is_of = { λ a m bytes count. AreAdvicesBelow m bytes count a };

    fn make(alloc: Global, model: &Model) -> Result<Advices, AllocError> {
        Advices::new(alloc, model)
    }

    fn keep(&mut self, model: &Model, n: u32, _pairs: &[Pair], advice: &[u8]) {
        if n > 0 {
            keep_advices(self, model, n, advice);
        }
    }
}

impl KeepsLayers for Layers {
    ghost was_given = { λ l m count. StandFor m count l };

    ghost is_of = { λ l m bytes count. AreLayersBelow m bytes count l };

    fn make(alloc: Global, model: &Model) -> Result<Layers, AllocError> {
        Layers::new(alloc, model)
    }

    fn keep(&mut self, _model: &Model, _n: u32, pairs: &[Pair], advice: &[u8]) {
        self.push(pairs, advice);
    }
}

// Keeps the advices of a layer, state by state.
fn keep_advices(advices: &mut Advices, model: &Model, n: u32, advice: &[u8])
    requires are { AreAdvicesOf model.now advices.old }
    requires some { 1 ≤ n }
    requires n { n ≤ model.now.grid.horizon }
    requires advice { length advice.now ≡ states model.now.grid }
    requires allowed { MayBeChosen model.now n (states model.now.grid) advice.now }
    ensures { KeepsLayer model.now n advices.old advices.new advice.now }
{
    for state in 0..model.grid().states() {
        advices.set(n, state, advice[state as usize]);
    }
}
