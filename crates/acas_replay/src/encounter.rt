//! An encounter as a value.
ghost use Rattle.std.specs.Prelude.{◌≡◌, ◌<◌};
ghost use Rattle.acas_replay.specs.Encounter.{IsEncounter, encounter_view, intruder_at, own_at, seconds};

use crate::start::Start;
use std::marker::Model;

/// An encounter of two aircraft: how it starts, and the acceleration of each of them in each second, in ft/min per second. It has from
/// [`LEAST_SECONDS`](acas_units::LEAST_SECONDS) to [`GREATEST_SECONDS`](acas_units::GREATEST_SECONDS) seconds, and its numbers are within
/// the limits of a file. Contracts see the start and two lists.
#[derive(Drop)]
pub struct Encounter {
    start: Start,
    own: Vec<i64>,
    intruder: Vec<i64>,
}

impl Model for Encounter {
    ghost use Rattle.acas_replay.specs.Encounter.{EncounterData, IsEncounter, encounter_view};

    ghost Value = { EncounterData };

    ghost view = { encounter_view };

    ghost invariant = { λ e. IsEncounter (encounter_view e) };
}

impl Encounter {
    /// The encounter of these parts.
    pub(crate) fn new(start: Start, own: Vec<i64>, intruder: Vec<i64>) -> Encounter
        requires { IsEncounter (record { start = start; own = own.items; intruder = intruder.items }) }
        ensures { result ≡ record { start = start; own = own.items; intruder = intruder.items } }
    {
        Encounter {
            start,
            own,
            intruder,
        }
    }

    /// How the encounter starts. It says what holds of each encounter.
    pub fn start(&self) -> &Start
        ensures value { result.now ≡ self.now.start }
        ensures valid { IsEncounter self.now }
    {
        &self.start
    }

    /// How many seconds the encounter has.
    pub fn seconds(&self) -> u32
        ensures value { result ≡ seconds self.now }
        ensures valid { IsEncounter self.now }
    {
        self.own.len() as u32
    }

    /// The own and the intruder's acceleration in a second, counted from 0, in ft/min per second.
    pub fn accelerations(&self, second: u32) -> (i64, i64)
        requires { second < seconds self.now }
        ensures own { result.0 ≡ own_at self.now second }
        ensures intruder { result.1 ≡ intruder_at self.now second }
        ensures valid { IsEncounter self.now }
    {
        let place = second as usize;
        (self.own[place], self.intruder[place])
    }
}
