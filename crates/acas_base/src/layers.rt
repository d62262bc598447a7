//! The layers of a table.
ghost use Rattle.std.specs.Prelude.{◌≡◌, ◌+◌, ◌*◌, ◌<◌, ◌≤◌, ◌++◌, length, slice_range, vec_capacity, vec_len, IfOk};
ghost use Rattle.acas_spec.specs.Model.{entries};
ghost use Rattle.acas_base.specs.Layers.{GainsLayer, advice_of, all_layers, no_layers, pairs_of};

use crate::model::Model;
use acas_units::Pair;
use std::alloc::{AllocError, Global};

/// The first layers of a table, from no second to go up; all of them are one more than the horizon. Contracts see how
/// many layers stand, and the pairs and the advices of each, in the order of the states' numbers. The pairs of all
/// stand in one block of memory, and so do the advices.
#[derive(Drop)]
pub struct Layers {
    horizon: u32,
    states: usize,
    count: u32,
    pairs: Vec<Pair>,
    advice: Vec<u8>,
}

impl std::marker::Model for Layers {
    ghost use Rattle.acas_base.specs.Layers.{HaveRoom, LayersData, layers_view};

    ghost Value = { LayersData };

    ghost view = { layers_view };

    ghost invariant = { HaveRoom };
}

impl Layers {
    /// No layers yet of a table of a model. Only this call takes memory: that of all layers, 17 bytes for each entry.
    pub fn new(alloc: Global, model: &Model) -> Result<Layers, AllocError>
        ensures { IfOk result (λ layers. layers ≡ no_layers model.now.grid) }
    {
        let grid = model.grid();
        let entries = grid.entries() as usize;
        let pairs = Vec::with_capacity(alloc, entries)?;
        let advice = Vec::with_capacity(alloc, entries)?;
        Ok(Layers {
            horizon: grid.horizon,
            states: grid.states() as usize,
            count: 0,
            pairs,
            advice,
        })
    }

    /// All layers of a table of a model, one after the other.
    pub fn whole(model: &Model, pairs: Vec<Pair>, advice: Vec<u8>) -> Layers
        requires pairs { vec_len pairs ≡ entries model.now.grid }
        requires advice { vec_len advice ≡ entries model.now.grid }
        ensures { result ≡ all_layers model.now.grid pairs.items advice.items }
    {
        let grid = model.grid();
        Layers {
            horizon: grid.horizon,
            states: grid.states() as usize,
            count: grid.horizon + 1,
            pairs,
            advice,
        }
    }

    /// Adds the next layer: a pair and an advice for each state, in the order of their numbers. It takes no memory.
    pub fn push(&mut self, pairs: &[Pair], advice: &[u8])
        requires count { self.old.count < self.old.horizon + 1 }
        requires pairs { length pairs.now ≡ self.old.states }
        requires advice { length advice.now ≡ self.old.states }
        ensures { GainsLayer self.old self.new pairs.now advice.now }
    {
        append(&mut self.pairs, pairs);
        append(&mut self.advice, advice);
        self.count += 1;
    }

    /// How many layers stand, at most one more than the horizon.
    pub fn len(&self) -> u32
        ensures value { result ≡ self.now.count }
        ensures most { result ≤ self.now.horizon + 1 }
    {
        self.count
    }

    /// The upper and the lower values with n seconds to go, of which there are fewer than layers, state by state.
    pub fn pairs(&self, n: u32) -> &[Pair]
        requires { n < self.now.count }
        ensures value { result.now ≡ pairs_of self.now n }
        ensures count { length result.now ≡ self.now.states }
    {
        part_of(self.pairs.as_slice(), n, self.states)
    }

    /// The advices with n seconds to go, of which there are fewer than layers, state by state: the number of an
    /// advisory each, or 255 with no second to go.
    pub fn advice(&self, n: u32) -> &[u8]
        requires { n < self.now.count }
        ensures value { result.now ≡ advice_of self.now n }
        ensures count { length result.now ≡ self.now.states }
    {
        part_of(self.advice.as_slice(), n, self.states)
    }
}

// Appends to a list that has the room.
fn append<T: Copy>(list: &mut Vec<T>, more: &[T])
    requires room { vec_len list.old + length more.now ≤ vec_capacity list.old }
    ensures items { list.new.items ≡ list.old.items ++ more.now }
    ensures capacity { vec_capacity list.old ≤ vec_capacity list.new }
{
    let appended = list.extend_from_slice(more);
    prove!(appended.is_ok());
}

// The part of a list that belongs to the layer with n seconds to go, by how many states each layer has.
fn part_of<T>(list: &[T], n: u32, states: usize) -> &[T]
    requires { n * states + states ≤ length list.now }
    ensures { result.now ≡ slice_range list.now (n * states) (n * states + states) }
{
    let first = n as usize * states;
    &list[first..first + states]
}
