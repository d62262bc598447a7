//! The command `migrate`.
ghost use Rattle.std.specs.Prelude.{◌≤◌, ◌≡◌, ◌⊎◌, ℕ, List, [], ◌∷◌, IsErrOf, IsTrue, IsSomeAnd};
ghost use Rattle.acas_outside.specs.Bytes.{IsBytes};
ghost use Rattle.acas_outside.specs.Files.{Given};
ghost use Rattle.acas_outside.specs.Frame.{ReadsAndWrites};
ghost use Rattle.acas_outside.specs.Outside.{outside};
ghost use Rattle.acas_command.specs.Answers.{Answers, ended};
ghost use Rattle.acas_command.specs.Called.{reading};
ghost use Rattle.acas_command.specs.ModelFile.{IsModelFile};
ghost use Rattle.acas_check_commands.specs.Calls.{CallsForMigrate};

use acas_command::{Cause, ModelFile, read_model_file};
use acas_means::LayerMeans;
use acas_outside::{Folder, Sink};
use acas_table_file::read_table_layers;
use acas_table_rows::{print_stored_line, store_layers};
use acas_table_writer::TableWriter;
use std::alloc::Global;

/// Checks a table of a model, of either version, stores its values and advices under another name in version 2, and
/// then prints how large that file is. It takes all its memory before it creates the file.
pub fn migrate<M: LayerMeans, F: Folder, O: Sink>(
    alloc: Global,
    model: &str,
    table: &str,
    target: &str,
    folder: &mut F,
    out: &mut O,
) -> Result<(), Cause>
    requires model { IsTrue (F.serves folder.old model.now) }
    requires table { IsTrue (F.serves folder.old table.now) }
    requires target { IsTrue (F.serves folder.old target.now) }
    ensures answers { Answers (CallsForMigrate model.now table.now target.now) (ended result)
        (outside F.Folder O.Sink folder.old out.old) (outside F.Folder O.Sink folder.new out.new) }
    // What was stored was read from bytes.
    ensures bytes { (ended result ≡ Cause.Done) ⊎ (ended result ≡ Cause.Output) →
        Given (F.holds folder.old) table.now (λ file. IsSomeAnd file IsBytes) }
    ensures folder { ReadsAndWrites F.Folder folder.old folder.new (IsErrOf result Cause.Folder) }
    ensures output { O.faults out.old ≤ O.faults out.new }
{
    let found = read_model_file(alloc, model, folder)?;
    store_accepted::<M, F, O>(&found, table, target, alloc, folder, out)
}

// Checks a table of a model that is read, stores it again, and prints how large that file is.
fn store_accepted<M: LayerMeans, F: Folder, O: Sink>(
    found: &ModelFile,
    table: &str,
    target: &str,
    alloc: Global,
    folder: &mut F,
    out: &mut O,
) -> Result<(), Cause>
    requires table { IsTrue (F.serves folder.old table.now) }
    requires target { IsTrue (F.serves folder.old target.now) }
    ensures answers { (model : List ℕ) → Given (F.holds folder.old) model (λ file. IsModelFile file found.now.digest found.now.model)
        → Answers (reading (table.now ∷ []) (CallsForMigrate model table.now target.now)) (ended result)
        (outside F.Folder O.Sink folder.old out.old) (outside F.Folder O.Sink folder.new out.new) }
    ensures bytes { (ended result ≡ Cause.Done) ⊎ (ended result ≡ Cause.Output) →
        Given (F.holds folder.old) table.now (λ file. IsSomeAnd file IsBytes) }
    ensures folder { ReadsAndWrites F.Folder folder.old folder.new (IsErrOf result Cause.Folder) }
    ensures output { O.faults out.old ≤ O.faults out.new }
{
    let layers = read_table_layers::<M, F>(alloc, found, table, folder)?;
    let writer = TableWriter::new(alloc, &found.model, &found.digest)?;
    let length = match store_layers(found, &layers, writer, folder, target) {
        Ok(length) => length,
        Err(_) => return Err(Cause::Folder),
    };
    match print_stored_line(out, "migrated", found.model.grid(), length) {
        Ok(()) => Ok(()),
        Err(_) => Err(Cause::Output),
    }
}
