//! The command `values`.
ghost use Rattle.std.specs.Prelude.{◌≡◌, ◌≢◌, ◌≤◌, ◌^◌, ◌+◌, ℕ, List, [], IsErrOf, IsTrue};
ghost use Rattle.acas_spec.specs.Model.{entries};
ghost use Rattle.acas_outside.specs.Files.{Given};
ghost use Rattle.acas_outside.specs.Frame.{ReadsAndWrites};
ghost use Rattle.acas_outside.specs.Outside.{Outside, outside};
ghost use Rattle.acas_sweep.specs.Layers.{backup_count};
ghost use Rattle.acas_command.specs.Answers.{Answers, EndsLooking, ended};
ghost use Rattle.acas_command.specs.Called.{reading};
ghost use Rattle.acas_command.specs.ModelFile.{IsModelFile};
ghost use Rattle.acas_table_commands.specs.Calls.{CallsForValues};
ghost use Rattle.acas_table_commands.specs.Work.{CountsSweep};

use acas_command::{Cause, ModelFile, read_model_file};
use acas_means::LayerMeans;
use acas_outside::{Folder, Sink};
use acas_plane::Turned;
use acas_sweep::{Backups, Sweep};
use acas_table_rows::{Pen, print_table};
use std::alloc::Global;

/// Prints the compiled table of a model, layer by layer as the sweep goes. It takes all its memory before the first
/// byte goes out. It counts the backups and the turned pairs of its sweep; each count is to be at most 2^63 before.
pub fn values<M: LayerMeans, F: Folder, O: Sink>(
    alloc: Global,
    model: &str,
    folder: &mut F,
    out: &mut O,
    backups: &mut Backups,
    turned: &mut Turned,
) -> Result<(), Cause>
    requires model { IsTrue (F.serves folder.old model.now) }
    requires backups { backups.old ≤ 2 ^ 63 }
    requires turned { turned.old ≤ 2 ^ 63 }
    ensures answers { Answers (CallsForValues model.now) (ended result)
        (outside F.Folder O.Sink folder.old out.old) (outside F.Folder O.Sink folder.new out.new) }
    ensures folder { ReadsAndWrites F.Folder folder.old folder.new (IsErrOf result Cause.Folder) }
    ensures output { O.faults out.old ≤ O.faults out.new }
    ensures rising { backups.old ≤ backups.new }
    ensures rising_turned { turned.old ≤ turned.new }
    // A done run has counted exactly one sweep, and one that ended before its sweep nothing.
    ensures work { CountsSweep EndsLooking model.now (F.holds folder.old) (ended result)
        backups.old backups.new turned.old turned.new }
{
    let found = read_model_file(alloc, model, folder)?;
    print_compiled::<M, O>(&found, alloc, out, backups, turned)
}

// Prints the compiled table of a model that is read, whatever is told of a folder beside the output.
fn print_compiled<M: LayerMeans, O: Sink>(
    found: &ModelFile,
    alloc: Global,
    out: &mut O,
    backups: &mut Backups,
    turned: &mut Turned,
) -> Result<(), Cause>
    requires backups { backups.old ≤ 2 ^ 63 }
    requires turned { turned.old ≤ 2 ^ 63 }
    ensures answers { (model : List ℕ) (folder : Outside) → Given folder.holds model (λ file. IsModelFile file found.now.digest found.now.model)
        → Answers (reading [] (CallsForValues model)) (ended result)
        (record folder { written = O.written out.old; output_faults = O.faults out.old })
        (record folder { written = O.written out.new; output_faults = O.faults out.new }) }
    ensures never { ended result ≢ Cause.Folder }
    ensures output { O.faults out.old ≤ O.faults out.new }
    ensures rising { backups.old ≤ backups.new }
    ensures rising_turned { turned.old ≤ turned.new }
    ensures counted { ended result ≡ Cause.Done → backups.new ≡ backups.old + backup_count found.now.model }
    ensures turns { ended result ≡ Cause.Done → turned.new ≡ turned.old + entries found.now.model.grid }
    ensures no_backups { EndsLooking (ended result) → backups.new ≡ backups.old }
    ensures no_turns { EndsLooking (ended result) → turned.new ≡ turned.old }
{
    let mut pen = Pen::make(alloc)?;
    let mut sweep = Sweep::<M>::make(alloc, &found.model)?;
    match print_table(&found.model, &mut sweep, &mut pen, out, backups, turned) {
        Ok(()) => Ok(()),
        Err(_) => Err(Cause::Output),
    }
}
