//! The advices of a table.
ghost use Rattle.std.specs.Prelude.{◌≡◌, ◌+◌, ◌*◌, ◌<◌, ◌≤◌, ℕ, length, set, get_or, IfOk};
ghost use Rattle.acas_base.specs.Advices.{AreAdvicesOf, advice_at, advice_place};

use crate::model::Model;
use std::alloc::{AllocError, Global};

/// What a table advises with at least one second to go: the number of an advisory for each layer and state. Contracts
/// see the layers from 1 to the horizon in one list, and each advice is below the number of advisories.
#[derive(Drop)]
pub struct Advices {
    horizon: u32,
    states: u32,
    advisories: u32,
    advice: Vec<u8>,
}

impl std::marker::Model for Advices {
    ghost use Rattle.acas_base.specs.Advices.{AdvicesData, AreAdvices, advices_view};

    ghost Value = { AdvicesData };

    ghost view = { advices_view };

    ghost invariant = { λ a. AreAdvices (advices_view a) };
}

impl Advices {
    /// Advices for a table of a model, each the first advisory. Only this call takes memory: a byte for each layer above
    /// layer 0 and each state.
    pub fn new(alloc: Global, model: &Model) -> Result<Advices, AllocError>
        ensures shape { IfOk result (λ a. AreAdvicesOf model.now a) }
        ensures clear { IfOk result (λ a. (n state : ℕ) → advice_at a n state ≡ 0) }
    {
        let grid = model.grid();
        let states = grid.states();
        let count = grid.horizon as usize * states as usize;
        let advice = vec![in alloc; 0u8; count]?;
        Ok(Advices {
            horizon: grid.horizon,
            states,
            advisories: grid.advisories,
            advice,
        })
    }

    /// Keeps the advice of a state with n seconds to go, from 1 to the horizon.
    pub fn set(&mut self, n: u32, state: u32, advice: u8)
        requires some { 1 ≤ n }
        requires n { n ≤ self.old.horizon }
        requires state { state < self.old.states }
        requires advice { advice < self.old.advisories }
        ensures { self.new
            ≡ record self.old { advice = set self.old.advice (advice_place self.old n state) advice } }
    {
        let place = (n as usize - 1) * self.states as usize + state as usize;
        self.advice[place] = advice;
    }

    /// The advice of a state with n seconds to go, from 1 to the horizon.
    pub fn at(&self, n: u32, state: u32) -> u8
        requires some { 1 ≤ n }
        requires n { n ≤ self.now.horizon }
        requires state { state < self.now.states }
        ensures value { result ≡ advice_at self.now n state }
        ensures known { result < self.now.advisories }
    {
        let place = (n as usize - 1) * self.states as usize + state as usize;
        self.advice.as_slice()[place]
    }
}
