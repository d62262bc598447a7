//! Laws of the text of encounters. The functions do nothing: their clauses are the laws.
ghost use Rattle.std.specs.Prelude.{◌≡◌, ◌↔◌, ℕ, List, Ok};
ghost use Rattle.acas_spec.specs.Model.{ModelData};
ghost use Rattle.acas_spec.specs.Limits.{IsModel};
ghost use Rattle.acas_replay.specs.Encounter.{EncounterData};
ghost use Rattle.acas_replay.specs.Whole.{encounter_of};
ghost use Rattle.acas_replay.specs.Text.{IsEncounterText};

/// A text is read as an encounter exactly where each of its keys holds the encounter's numbers, it has no other keys, and the encounter
/// is within its limits and starts under one of the model's advisories. No order of the keys or of the rules plays a part.
pub fn texts_say_their_encounters()
    ensures { (m : ModelData) (bytes : List ℕ) (e : EncounterData) → IsModel m →
        (encounter_of m bytes ≡ Ok e) ↔ IsEncounterText m bytes e }
{}
