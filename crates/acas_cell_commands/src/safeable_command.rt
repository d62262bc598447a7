//! The command `safeable`.
ghost use Rattle.std.specs.Prelude.{◌≤◌, ℕ, List, [], ◌∷◌, IsErrOf, IsTrue};
ghost use Rattle.acas_outside.specs.Files.{Given};
ghost use Rattle.acas_outside.specs.Frame.{ReadsAndWrites};
ghost use Rattle.acas_outside.specs.Outside.{outside};
ghost use Rattle.acas_command.specs.Answers.{Answers, report_ended};
ghost use Rattle.acas_command.specs.Called.{reading};
ghost use Rattle.acas_command.specs.ModelFile.{IsModelFile};
ghost use Rattle.acas_cell_commands.specs.SafeableCalls.{CallsForSafeable};

use acas_command::{Cause, ModelFile, read_model_file};
use acas_means::LayerMeans;
use acas_outside::{Folder, PrintFault, Sink};
use acas_safeable::write_safeable;
use acas_table_file::read_table_file;
use std::alloc::Global;

/// Prints for each clear cell of a table, once the whole table is accepted, the advisory that keeps it safe where it is given a second
/// later, or that none is shown. It answers how many cells are open. It keeps the table's advices, one byte each, and reads the table once.
pub fn safeable<M: LayerMeans, F: Folder, O: Sink>(
    alloc: Global,
    model: &str,
    table: &str,
    folder: &mut F,
    out: &mut O,
) -> Result<u64, Cause>
    requires model { IsTrue (F.serves folder.old model.now) }
    requires table { IsTrue (F.serves folder.old table.now) }
    ensures answers { Answers (CallsForSafeable model.now table.now) (report_ended result)
        (outside F.Folder O.Sink folder.old out.old) (outside F.Folder O.Sink folder.new out.new) }
    ensures output { O.faults out.old ≤ O.faults out.new }
    ensures folder { ReadsAndWrites F.Folder folder.old folder.new (IsErrOf result Cause.Folder) }
{
    let found = read_model_file(alloc, model, folder)?;
    print_safeable::<M, F, O>(alloc, &found, table, folder, out)
}

// Prints what keeps each clear cell of a table safe, where the model is read.
fn print_safeable<M: LayerMeans, F: Folder, O: Sink>(
    alloc: Global,
    found: &ModelFile,
    table: &str,
    folder: &mut F,
    out: &mut O,
) -> Result<u64, Cause>
    requires table { IsTrue (F.serves folder.old table.now) }
    ensures answers { (model : List ℕ) → Given (F.holds folder.old) model (λ file. IsModelFile file found.now.digest found.now.model)
        → Answers (reading (table.now ∷ []) (CallsForSafeable model table.now)) (report_ended result)
        (outside F.Folder O.Sink folder.old out.old) (outside F.Folder O.Sink folder.new out.new) }
    ensures folder { ReadsAndWrites F.Folder folder.old folder.new (IsErrOf result Cause.Folder) }
    ensures output { O.faults out.old ≤ O.faults out.new }
{
    let advices = read_table_file::<M, F>(alloc, found, table, folder)?;
    match write_safeable(alloc, &found.model, &advices, out) {
        Ok(counts) => Ok(counts.unshown),
        Err(PrintFault::Sink) => Err(Cause::Output),
        Err(PrintFault::Memory) => Err(Cause::Memory),
    }
}
