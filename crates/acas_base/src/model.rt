//! A model within its limits.
ghost use Rattle.std.specs.Prelude.{◌≡◌, ◌<◌, ◌≤◌, Some, pos, length, position};
ghost use Rattle.std.specs.Str.{bytes_eq};
ghost use Rattle.acas_spec.specs.Limits.{IsModel};
ghost use Rattle.acas_spec.specs.Model.{advisory_at, choices_at, total_weight};
ghost use Rattle.acas_base.specs.View.{lists_of, model_with};

use crate::names::position_of;
use crate::numbers::Numbers;
use crate::weights::total_weight;
use acas_grid::Grid;
use acas_spec::{Advisory, Choice, SigmaPoint};
use acas_units::{GREATEST_NAME_BYTES, Span};

/// A model whose numbers are all within their limits. Contracts see it as the plain data that its file says.
#[derive(Drop)]
pub struct Model {
    grid: Grid,
    advisories: Vec<Advisory>,
    choices: Vec<Vec<Choice>>,
    sigmas: Vec<SigmaPoint>,
    numbers: Numbers,
}

impl std::marker::Model for Model {
    ghost use Rattle.acas_spec.specs.Model.{ModelData};

    ghost Value = { ModelData };

    ghost use Rattle.acas_base.specs.View.{model_view, IsValid};

    ghost view = { model_view };

    ghost invariant = { IsValid };
}

impl Model {
    /// The model of these parts.
    pub fn new(
        grid: Grid,
        numbers: Numbers,
        advisories: Vec<Advisory>,
        choices: Vec<Vec<Choice>>,
        sigmas: Vec<SigmaPoint>,
    ) -> Model
        requires { IsModel (model_with grid numbers advisories.items (lists_of choices) sigmas.items) }
        ensures { result ≡ model_with grid numbers advisories.items (lists_of choices) sigmas.items }
    {
        Model {
            grid,
            advisories,
            choices,
            sigmas,
            numbers,
        }
    }

    /// The grid, with its altitudes in ticks and its rates in ft/min. It says what holds of each model.
    pub fn grid(&self) -> &Grid
        ensures value { result.now ≡ self.now.grid }
        ensures valid { IsModel self.now }
    {
        &self.grid
    }

    /// The advisory of a number. The first is clear of conflict.
    pub fn advisory(&self, a: u8) -> &Advisory
        requires { a < self.now.grid.advisories }
        ensures { result.now ≡ advisory_at self.now a }
    {
        &self.advisories[a as usize]
    }

    /// The name of the advisory of a number, as its bytes.
    pub fn name(&self, a: u8) -> &[u8]
        requires { a < self.now.grid.advisories }
        ensures value { result.now ≡ (advisory_at self.now a).name }
        ensures short { length result.now ≤ GREATEST_NAME_BYTES }
    {
        // Its names are not too long, as all of a model's are.
        let _ = self.grid();
        self.advisory(a).name.bytes()
    }

    /// What may be chosen under a present advisory, in the order of the file.
    pub fn choices(&self, a: u8) -> &[Choice]
        requires { a < self.now.grid.advisories }
        ensures { result.now ≡ choices_at self.now a }
    {
        self.choices[a as usize].as_slice()
    }

    /// The sigma points, in the order of the file.
    pub fn points(&self) -> &[SigmaPoint]
        ensures { result.now ≡ self.now.sigmas }
    {
        self.sigmas.as_slice()
    }

    /// The sum of the sigma weights.
    pub fn total_weight(&self) -> i64
        ensures { result ≡ pos (total_weight self.now) }
    {
        i64::from(total_weight(&self.sigmas))
    }

    /// The least acceleration of a pilot who follows an advisory, in ft/min per second.
    pub fn pull(&self) -> i64
        ensures { result ≡ pos self.now.pull }
    {
        i64::from(self.numbers.pilot.pull)
    }

    /// The greatest acceleration of a pilot, in ft/min per second.
    pub fn limit(&self) -> i64
        ensures { result ≡ pos self.now.limit }
    {
        i64::from(self.numbers.pilot.limit)
    }

    /// How long the pilot may hold the rate before following an advisory, in seconds.
    pub fn delay(&self) -> i64
        ensures { result ≡ pos self.now.delay }
    {
        i64::from(self.numbers.pilot.delay)
    }

    /// The radius of the puck, in ft.
    pub fn radius(&self) -> i64
        ensures { result ≡ pos self.now.radius }
    {
        i64::from(self.numbers.puck.radius)
    }

    /// Half of the puck's height, in ticks.
    pub fn half(&self) -> i64
        ensures { result ≡ pos self.now.half }
    {
        i64::from(self.numbers.puck.half)
    }

    /// The least and the greatest closing speed, in ft/s.
    pub fn closing(&self) -> Span
        ensures least { result.least ≡ pos self.now.least_closing }
        ensures greatest { result.greatest ≡ pos self.now.greatest_closing }
    {
        Span::new(
            i64::from(self.numbers.closing.least),
            i64::from(self.numbers.closing.greatest),
        )
    }

    /// The cost of contact, in units.
    pub fn contact(&self) -> i64
        ensures { result ≡ self.now.contact }
    {
        self.numbers.contact
    }

    /// The number of the advisory of this name, or none where no advisory has it.
    pub fn find_name(&self, name: &[u8]) -> Option<u8>
        ensures { result ≡ position (λ a. bytes_eq a.name name.now) self.now.advisories }
    {
        match position_of(&self.advisories, name) {
            Some(place) => Some(place as u8),
            None => None,
        }
    }
}
