//! The command `risk`.
ghost use Rattle.std.specs.Prelude.{◌≡◌, ◌≤◌, ℕ, List, [], ◌∷◌, IsErrOf, IsSomeAnd, IsTrue};
ghost use Rattle.acas_outside.specs.Bytes.{IsBytes};
ghost use Rattle.acas_outside.specs.Files.{Given};
ghost use Rattle.acas_outside.specs.Frame.{ReadsAndWrites};
ghost use Rattle.acas_outside.specs.Outside.{outside};
ghost use Rattle.acas_command.specs.Answers.{Answers, ended};
ghost use Rattle.acas_command.specs.Called.{reading};
ghost use Rattle.acas_command.specs.ModelFile.{IsModelFile};
ghost use Rattle.acas_risk_commands.specs.Calls.{CallsForRisk};

use acas_command::{Cause, ModelFile, read_model_file};
use acas_means::LayerMeans;
use acas_outside::{Folder, PrintFault, Sink};
use acas_risk::write_risk;
use acas_table_file::read_table_file;
use std::alloc::Global;

/// Checks a table of a model, and prints for each state at the horizon bounds of the chance of contact under the table's policy and under
/// the policy that is always clear of conflict, and of what the table's policy costs.
pub fn risk<M: LayerMeans, F: Folder, O: Sink>(
    alloc: Global,
    model: &str,
    table: &str,
    folder: &mut F,
    out: &mut O,
) -> Result<(), Cause>
    requires model { IsTrue (F.serves folder.old model.now) }
    requires table { IsTrue (F.serves folder.old table.now) }
    ensures answers { Answers (CallsForRisk model.now table.now) (ended result)
        (outside F.Folder O.Sink folder.old out.old) (outside F.Folder O.Sink folder.new out.new) }
    // What was accepted are bytes.
    ensures bytes { ended result ≡ Cause.Done →
        Given (F.holds folder.old) table.now (λ file. IsSomeAnd file IsBytes) }
    ensures folder { ReadsAndWrites F.Folder folder.old folder.new (IsErrOf result Cause.Folder) }
    ensures output { O.faults out.old ≤ O.faults out.new }
{
    let found = read_model_file(alloc, model, folder)?;
    print_risk::<M, F, O>(&found, table, alloc, folder, out)
}

// Prints the bounds of the chances and of the cost of a table, where the model is read.
fn print_risk<M: LayerMeans, F: Folder, O: Sink>(
    found: &ModelFile,
    table: &str,
    alloc: Global,
    folder: &mut F,
    out: &mut O,
) -> Result<(), Cause>
    requires table { IsTrue (F.serves folder.old table.now) }
    ensures answers { (model : List ℕ) → Given (F.holds folder.old) model (λ file. IsModelFile file found.now.digest found.now.model)
        → Answers (reading (table.now ∷ []) (CallsForRisk model table.now)) (ended result)
        (outside F.Folder O.Sink folder.old out.old) (outside F.Folder O.Sink folder.new out.new) }
    ensures bytes { ended result ≡ Cause.Done →
        Given (F.holds folder.old) table.now (λ file. IsSomeAnd file IsBytes) }
    ensures folder { ReadsAndWrites F.Folder folder.old folder.new (IsErrOf result Cause.Folder) }
    ensures output { O.faults out.old ≤ O.faults out.new }
{
    let advices = read_table_file::<M, F>(alloc, found, table, folder)?;
    match write_risk::<M, O>(alloc, &found.model, &advices, out) {
        Ok(_) => Ok(()),
        Err(PrintFault::Sink) => Err(Cause::Output),
        Err(PrintFault::Memory) => Err(Cause::Memory),
    }
}
