//! The command `replay`.
ghost use Rattle.std.specs.Prelude.{◌≤◌, ℕ, List, [], ◌∷◌, IsErrOf, IsTrue};
ghost use Rattle.acas_outside.specs.Files.{Given};
ghost use Rattle.acas_outside.specs.Frame.{ReadsAndWrites};
ghost use Rattle.acas_outside.specs.Outside.{outside};
ghost use Rattle.acas_command.specs.Answers.{Answers, ended};
ghost use Rattle.acas_command.specs.Called.{reading};
ghost use Rattle.acas_command.specs.ModelFile.{IsModelFile};
ghost use Rattle.acas_encounter_commands.specs.Calls.{CallsForReplay};

use acas_command::{Cause, FileRole, ModelFile, read_model_file, read_text_file};
use acas_means::LayerMeans;
use acas_outside::{Folder, PrintFault, Sink};
use acas_replay::read_encounter;
use acas_table_file::read_table_file;
use std::alloc::Global;

/// Flies an encounter under the advice of a table, once the whole table is accepted, and prints what is issued in each second and
/// whether the second is in contact.
pub fn replay<M: LayerMeans, F: Folder, O: Sink>(
    alloc: Global,
    model: &str,
    table: &str,
    encounter: &str,
    folder: &mut F,
    out: &mut O,
) -> Result<(), Cause>
    requires model { IsTrue (F.serves folder.old model.now) }
    requires table { IsTrue (F.serves folder.old table.now) }
    requires encounter { IsTrue (F.serves folder.old encounter.now) }
    ensures answers { Answers (CallsForReplay model.now table.now encounter.now) (ended result)
        (outside F.Folder O.Sink folder.old out.old) (outside F.Folder O.Sink folder.new out.new) }
    ensures folder { ReadsAndWrites F.Folder folder.old folder.new (IsErrOf result Cause.Folder) }
    ensures output { O.faults out.old ≤ O.faults out.new }
{
    let found = read_model_file(alloc, model, folder)?;
    fly::<M, F, O>(&found, table, encounter, alloc, folder, out)
}

// Flies an encounter under the advice of a table, where the model is read.
fn fly<M: LayerMeans, F: Folder, O: Sink>(
    found: &ModelFile,
    table: &str,
    encounter: &str,
    alloc: Global,
    folder: &mut F,
    out: &mut O,
) -> Result<(), Cause>
    requires table { IsTrue (F.serves folder.old table.now) }
    requires encounter { IsTrue (F.serves folder.old encounter.now) }
    ensures answers { (model : List ℕ) → Given (F.holds folder.old) model (λ file. IsModelFile file found.now.digest found.now.model)
        → Answers (reading (table.now ∷ encounter.now ∷ []) (CallsForReplay model table.now encounter.now)) (ended result)
        (outside F.Folder O.Sink folder.old out.old) (outside F.Folder O.Sink folder.new out.new) }
    ensures folder { ReadsAndWrites F.Folder folder.old folder.new (IsErrOf result Cause.Folder) }
    ensures output { O.faults out.old ≤ O.faults out.new }
{
    let advices = read_table_file::<M, F>(alloc, found, table, folder)?;
    let text = read_text_file(alloc, FileRole::Encounter, encounter, folder)?;
    let flown = read_encounter(alloc, &found.model, &text)?;
    match acas_replay::replay(alloc, &found.model, &advices, &flown, out) {
        Ok(_) => Ok(()),
        Err(PrintFault::Sink) => Err(Cause::Output),
        Err(PrintFault::Memory) => Err(Cause::Memory),
    }
}
