//! The rules of an encounter's text, in their order.
ghost use Rattle.std.specs.Prelude.{◌≡◌, IfOk, IfErr};
ghost use Rattle.toml.specs.View.{table_view};
ghost use Rattle.acas_doc.specs.InputAnswers.{Gives};
ghost use Rattle.acas_replay.specs.Encounter.{IsEncounterOf};
ghost use Rattle.acas_replay.specs.Whole as rules;

use crate::accelerations::accelerations_at;
use crate::encounter::Encounter;
use crate::start::start_of;
use acas_base::Model;
use acas_doc::{InputFault, document_of, only_keys, version_of};
use acas_units::{GREATEST_SECONDS, LEAST_SECONDS};
use std::alloc::Global;
use toml::Table;

/// The encounter of a document.
#[tactic(auto, unfolding(crate::specs::Whole::encounter_in))]
fn encounter_in(alloc: Global, model: &Model, document: &Table) -> Result<Encounter, InputFault>
    ensures value { Gives (λ e. e) result (rules.encounter_in model.now (table_view document.now)) }
    ensures fits { IfOk result (IsEncounterOf model.now) }
{
    only_keys(
        alloc,
        document,
        b"",
        "version advisory range closing altitude own intruder own_accel intruder_accel",
    )?;
    version_of(alloc, document)?;
    let start = start_of(alloc, model, document)?;
    let own = accelerations_at(
        alloc,
        document,
        "own_accel",
        LEAST_SECONDS,
        GREATEST_SECONDS,
    )?;
    let seconds = own.len() as u32;
    let intruder = accelerations_at(alloc, document, "intruder_accel", seconds, seconds)?;
    Ok(Encounter::new(start, own, intruder))
}

/// The encounter that a text says, or the first rule that the text fails. The bytes are those of a TOML document with the keys
/// `version`, `advisory`, the name of the one of the model's advisories that is present at the start, `range` in ft, `closing` in ft/s,
/// `altitude` in ft, `own` and `intruder` in ft/min, and `own_accel` and `intruder_accel`, two lists of one length with an acceleration
/// in ft/min per second for each second. It never answers [`Window`](InputFault::Window) or
/// [`Rate`](InputFault::Rate), and the place of an unknown name is 0.
#[tactic(auto, unfolding(crate::specs::Whole::encounter_of))]
pub fn read_encounter(alloc: Global, model: &Model, bytes: &[u8]) -> Result<Encounter, InputFault>
    ensures value { Gives (λ e. e) result (rules.encounter_of model.now bytes.now) }
    ensures fits { IfOk result (IsEncounterOf model.now) }
    ensures fault { IfErr result rules.IsOfEncounter }
{
    let document = document_of(alloc, bytes)?;
    encounter_in(alloc, model, &document)
}
