//! What a table takes from the grid of its model.

use acas_base::Model;

/// The five numbers that a table's header names, and how many states a layer has.
#[derive(Clone, Copy)]
pub struct TableShape {
    /// The number of relative altitudes.
    pub altitudes: u32,
    /// The number of own rates.
    pub own_rates: u32,
    /// The number of intruder rates.
    pub intruder_rates: u32,
    /// The number of advisories.
    pub advisories: u32,
    /// How many seconds the table goes back. It has one layer more.
    pub horizon: u32,
    /// The number of states of a layer: a vertex under each present advisory.
    pub states: u32,
}

impl TableShape {
    ghost use Rattle.std.specs.Prelude.{◌≡◌, ◌≤◌};
    ghost use Rattle.acas_table_text.specs.Shape.{IsShape, entry_count, shape_of};

    /// The shape of a model's tables.
    pub fn of(model: &Model) -> TableShape
        ensures value { result ≡ shape_of model.now.grid }
        ensures limited { IsShape result }
    {
        let grid = model.grid();
        TableShape {
            altitudes: grid.h.len(),
            own_rates: grid.v0.len(),
            intruder_rates: grid.v1.len(),
            advisories: grid.advisories,
            horizon: grid.horizon,
            states: grid.states(),
        }
    }

    /// How many entries a table has.
    pub fn entries(&self) -> u32
        requires { IsShape self.now }
        ensures { result ≡ entry_count self.now }
    {
        (self.horizon + 1) * self.states
    }
}
