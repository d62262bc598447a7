//! How far a replay is.
ghost use Rattle.std.specs.Prelude.{◌+◌, ◌<◌, IsTrue, ◌↔◌};
ghost use Rattle.acas_base.specs.Advices.{AreAdvicesOf};
ghost use Rattle.acas_replay.specs.Encounter.{IsEncounterOf, seconds};
ghost use Rattle.acas_replay.specs.Contact.{HasContact};
ghost use Rattle.acas_replay.specs.Seconds.{IsSecond};

use crate::Encounter;
use crate::contact::has_contact;
use crate::issue::issued_advice;
use crate::second::Second;
use crate::state::EncounterState;
use acas_base::{Advices, Model};

/// An encounter, and the model and the advices of a table under which it is replayed.
#[derive(Clone, Copy)]
pub(crate) struct Replayed<'a> {
    pub(crate) model: &'a Model,
    pub(crate) advices: &'a Advices,
    pub(crate) encounter: &'a Encounter,
}

/// What is found in a second: the issued advice, and whether it is in contact.
#[derive(Clone, Copy)]
pub(crate) struct Found {
    pub(crate) advice: u8,
    pub(crate) contact: bool,
}

/// The state as the next second begins, and how many seconds before it are in contact.
#[derive(Clone, Copy)]
pub(crate) struct Progress {
    pub(crate) state: EncounterState,
    pub(crate) contacts: u32,
}

// Whether a second is in contact by the puck of a model.
fn is_in_contact(model: &Model, second: &Second) -> bool
    requires { IsSecond second.now }
    ensures { IsTrue result ↔ HasContact model.now.radius model.now.half second.now }
{
    // Opens the model's limits: the puck is small.
    let _ = model.grid();
    has_contact(model.radius() as u32, model.half() as u32, second)
}

impl Replayed<'_> {
    ghost use Rattle.acas_replay.specs.Flown.{IsFlown, IsFoundIn, IsReached};

    /// What is found in a second that begins at a state.
    pub(crate) fn found_in(&self, second: u32, state: &EncounterState) -> Found
        requires advices { AreAdvicesOf self.now.model.now self.now.advices.now }
        requires second { second < seconds self.now.encounter.now }
        requires present { state.now.present < self.now.model.now.grid.advisories }
        requires reached { IsReached second state.now }
        ensures { IsFoundIn self.now second state.now result }
    {
        let (own, intruder) = self.encounter.accelerations(second);
        let advice = issued_advice(self.model, self.advices, state);
        let contact = is_in_contact(self.model, &state.second(own, intruder));
        Found { advice, contact }
    }

    /// The start, where no second is replayed yet.
    pub(crate) fn start(&self) -> Progress
        requires { IsEncounterOf self.now.model.now self.now.encounter.now }
        ensures { IsFlown self.now 0 result }
    {
        Progress {
            state: EncounterState::start_of(self.encounter),
            contacts: 0,
        }
    }

    /// How far the replay is after one second more, in which this is found.
    pub(crate) fn next(&self, second: u32, at: &Progress, found: &Found) -> Progress
        requires second { second < seconds self.now.encounter.now }
        requires flown { IsFlown self.now second at.now }
        requires found { IsFoundIn self.now second at.now.state found.now }
        ensures { IsFlown self.now (second + 1) result }
    {
        let (own, intruder) = self.encounter.accelerations(second);
        let state = at.state.after(found.advice, own, intruder);
        let contacts = at.contacts + u32::from(found.contact);
        Progress { state, contacts }
    }
}
