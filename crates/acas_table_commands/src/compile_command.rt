//! The command `compile`.
ghost use Rattle.std.specs.Prelude.{◌≡◌, ◌≤◌, ◌^◌, ◌+◌, ℕ, List, [], IsErrOf, IsTrue};
ghost use Rattle.acas_spec.specs.Model.{entries};
ghost use Rattle.acas_outside.specs.Files.{Given};
ghost use Rattle.acas_outside.specs.Frame.{ReadsAndWrites};
ghost use Rattle.acas_outside.specs.Outside.{outside};
ghost use Rattle.acas_sweep.specs.Layers.{backup_count};
ghost use Rattle.acas_command.specs.Answers.{Answers, ended};
ghost use Rattle.acas_command.specs.Called.{reading};
ghost use Rattle.acas_command.specs.ModelFile.{IsModelFile};
ghost use Rattle.acas_table_commands.specs.Calls.{CallsForCompile};
ghost use Rattle.acas_table_commands.specs.Work.{CountsSweep, EndsUnswept};

use acas_command::{Cause, ModelFile, read_model_file};
use acas_means::LayerMeans;
use acas_outside::{Folder, Sink};
use acas_plane::Turned;
use acas_sweep::{Backups, Sweep};
use acas_table_rows::{print_stored_line, store_swept};
use acas_table_writer::TableWriter;
use std::alloc::Global;

/// Stores the compiled table of a model under another name, in version 2, and then prints how large it is. It takes all
/// its memory before it creates the table's file. It counts the backups and the turned pairs of its sweep; each count
/// is to be at most 2^63 before.
pub fn compile<M: LayerMeans, F: Folder, O: Sink>(
    alloc: Global,
    model: &str,
    table: &str,
    folder: &mut F,
    out: &mut O,
    backups: &mut Backups,
    turned: &mut Turned,
) -> Result<(), Cause>
    requires model { IsTrue (F.serves folder.old model.now) }
    requires table { IsTrue (F.serves folder.old table.now) }
    requires backups { backups.old ≤ 2 ^ 63 }
    requires turned { turned.old ≤ 2 ^ 63 }
    ensures answers { Answers (CallsForCompile model.now table.now) (ended result)
        (outside F.Folder O.Sink folder.old out.old) (outside F.Folder O.Sink folder.new out.new) }
    ensures folder { ReadsAndWrites F.Folder folder.old folder.new (IsErrOf result Cause.Folder) }
    ensures output { O.faults out.old ≤ O.faults out.new }
    ensures rising { backups.old ≤ backups.new }
    ensures rising_turned { turned.old ≤ turned.new }
    // A done run has counted exactly one sweep, and one that ended before its sweep nothing.
    ensures work { CountsSweep EndsUnswept model.now (F.holds folder.old) (ended result)
        backups.old backups.new turned.old turned.new }
{
    let found = read_model_file(alloc, model, folder)?;
    store_compiled::<M, F, O>(&found, table, alloc, folder, out, backups, turned)
}

// Stores the compiled table of a model that is read, and prints how large it is.
fn store_compiled<M: LayerMeans, F: Folder, O: Sink>(
    found: &ModelFile,
    table: &str,
    alloc: Global,
    folder: &mut F,
    out: &mut O,
    backups: &mut Backups,
    turned: &mut Turned,
) -> Result<(), Cause>
    requires backups { backups.old ≤ 2 ^ 63 }
    requires table { IsTrue (F.serves folder.old table.now) }
    requires turned { turned.old ≤ 2 ^ 63 }
    ensures answers { (model : List ℕ) → Given (F.holds folder.old) model (λ file. IsModelFile file found.now.digest found.now.model)
        → Answers (reading [] (CallsForCompile model table.now)) (ended result)
        (outside F.Folder O.Sink folder.old out.old) (outside F.Folder O.Sink folder.new out.new) }
    ensures folder { ReadsAndWrites F.Folder folder.old folder.new (IsErrOf result Cause.Folder) }
    ensures output { O.faults out.old ≤ O.faults out.new }
    ensures rising { backups.old ≤ backups.new }
    ensures rising_turned { turned.old ≤ turned.new }
    ensures counted { ended result ≡ Cause.Done → backups.new ≡ backups.old + backup_count found.now.model }
    ensures turns { ended result ≡ Cause.Done → turned.new ≡ turned.old + entries found.now.model.grid }
    ensures no_backups { EndsUnswept (ended result) → backups.new ≡ backups.old }
    ensures no_turns { EndsUnswept (ended result) → turned.new ≡ turned.old }
{
    let mut sweep = Sweep::<M>::make(alloc, &found.model)?;
    let writer = TableWriter::new(alloc, &found.model, &found.digest)?;
    let length = match store_swept(found, &mut sweep, writer, folder, table, backups, turned) {
        Ok(length) => length,
        Err(_) => return Err(Cause::Folder),
    };
    match print_stored_line(out, "compiled", found.model.grid(), length) {
        Ok(()) => Ok(()),
        Err(_) => Err(Cause::Output),
    }
}
