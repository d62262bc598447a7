//! Plans: which advisory is given in each state.
ghost use Rattle.std.specs.Prelude.{◌≡◌, ◌+◌, ◌<◌};
ghost use Rattle.acas_spec.specs.Model.{states};
ghost use Rattle.acas_grid.specs.States.{state_present, state_vertex};
ghost use Rattle.acas_risk.specs.Plans.{FitsModel, policy_of};

use acas_base::{Advices, Model};

/// What says which advisory is given in each state with at least one second to go.
#[derive(Clone, Copy)]
pub enum Plan<'a> {
    /// What a table advises.
    Tabled(&'a Advices),
    /// Always the first advisory, clear of conflict, whether or not the model lets it be chosen.
    AlwaysClear,
}

impl Plan<'_> {
    /// The advisory that is given with one second more to go than `n`, in the state of a number.
    pub(crate) fn given(&self, model: &Model, n: u32, state: u32) -> u8
        requires fits { FitsModel model.now self.now }
        requires n { n < model.now.grid.horizon }
        requires state { state < states model.now.grid }
        ensures value { result
            ≡ policy_of model.now self.now (n + 1) (state_present model.now.grid state) (state_vertex model.now.grid state) }
        ensures known { result < model.now.grid.advisories }
    {
        let _ = model.grid();
        match self {
            Plan::Tabled(advices) => advices.at(n + 1, state),
            Plan::AlwaysClear => 0,
        }
    }
}
