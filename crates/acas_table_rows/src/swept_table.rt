//! The file of a compiled table, stored layer by layer as the sweep goes.
ghost use Rattle.std.specs.Prelude.{[], ◌≡◌, ◌⊎◌, ◌+◌, ◌≤◌, ◌^◌, IsTrue, IsErr, IsSome, IfOk, OnOk, OnErr, Option};
ghost use Rattle.acas_outside.specs.Files.{Files, Given, Stores, StoresPart};
ghost use Rattle.acas_outside.specs.Frame.{OnlyWrites};
ghost use Rattle.acas_spec.specs.Model.{entries};
ghost use Rattle.acas_sweep.specs.Layers.{backup_count};
ghost use Rattle.acas_table_text.specs.Shape.{shape_of};
ghost use Rattle.acas_table_text.specs.Format.{length_of};
ghost use Rattle.acas_table_text.specs.declared.format.Format.TheVariants.{Layered};
ghost use Rattle.acas_table_writer.specs.Writer.{HasWritten, new_writer, writer_state};
ghost use Rattle.acas_sweep.specs.Room.{IsRoomFor};
ghost use Rattle.acas_table_rows.specs.TableFile.{IsCompiling, compiled_part, compiled_text};

use crate::begun_writer::BegunWriter;
use crate::table_rows::TableRows;
use acas_command::ModelFile;
use acas_means::LayerMeans;
use acas_outside::{Failed, Folder};
use acas_plane::Turned;
use acas_sweep::{Backups, Sweep, SweepFault, sweep_to};
use acas_table_writer::TableWriter;

/// Stores the compiled table of a model, layer by layer as the sweep goes, and answers its length. Where it fails, the
/// name holds what it held, or a proper prefix of the table's text. It takes no memory. It counts the backups and the
/// turned pairs of the sweep.
pub fn store_swept<M: LayerMeans, F: Folder>(
    found: &ModelFile,
    sweep: &mut Sweep<M>,
    writer: TableWriter,
    folder: &mut F,
    name: &str,
    backups: &mut Backups,
    turned: &mut Turned,
) -> Result<u64, Failed>
    requires served { IsTrue (F.serves folder.old name.now) }
    requires fits { M.fits sweep.old.means found.now.model }
    requires room { IsRoomFor found.now.model sweep.old.room }
    requires state { writer_state writer
        ≡ new_writer Layered found.now.digest (shape_of found.now.model.grid) }
    requires written { HasWritten writer [] }
    requires backups { backups.old ≤ 2 ^ 63 }
    requires turned { turned.old ≤ 2 ^ 63 }
    ensures ok { let text = compiled_text found.now.digest found.now.model in
        OnOk result (Stores (F.holds folder.old) (F.holds folder.new) name.now text) }
    ensures err { let text = compiled_text found.now.digest found.now.model in
        OnErr result ((F.holds folder.new ≡ F.holds folder.old)
        ⊎ StoresPart (F.holds folder.old) (F.holds folder.new) name.now text) }
    ensures length { IfOk result (λ n. n ≡ length_of Layered (shape_of found.now.model.grid)) }
    ensures frame { OnlyWrites F.Folder folder.old folder.new (IsErr result) }
    ensures counted { OnOk result (backups.new ≡ backups.old + backup_count found.now.model) }
    ensures turns { OnOk result (turned.new ≡ turned.old + entries found.now.model.grid) }
    ensures rising { backups.old ≤ backups.new }
    ensures rising_turned { turned.old ≤ turned.new }
{
    let mut writer = writer;
    writer.start(folder, name)?;
    let mut begun = BegunWriter { writer };
    append_swept(found, sweep, &mut begun, folder, name, backups, turned)?;
    let mut writer = begun.writer;
    writer.finish(folder, name)
}

// Appends all layers, by a writer that has appended none.
fn append_swept<M: LayerMeans, F: Folder>(
    found: &ModelFile,
    sweep: &mut Sweep<M>,
    begun: &mut BegunWriter,
    folder: &mut F,
    name: &str,
    backups: &mut Backups,
    turned: &mut Turned,
) -> Result<(), Failed>
    requires served { IsTrue (F.serves folder.old name.now) }
    requires held { Given (F.holds folder.old) name.now (λ file. IsSome file) }
    requires fits { M.fits sweep.old.means found.now.model }
    requires room { IsRoomFor found.now.model sweep.old.room }
    requires writing { IsCompiling found.now.digest found.now.model 0 begun.old.writer }
    requires backups { backups.old ≤ 2 ^ 63 }
    requires turned { turned.old ≤ 2 ^ 63 }
    ensures ok { let layer_count = found.now.model.grid.horizon + 1 in
        (before : Option Files)
        → Stores before (F.holds folder.old) name.now (compiled_part found.now.digest found.now.model 0)
        → OnOk result (Stores before (F.holds folder.new) name.now
        (compiled_part found.now.digest found.now.model layer_count)) }
    ensures err { (before : Option Files)
        → Stores before (F.holds folder.old) name.now (compiled_part found.now.digest found.now.model 0)
        → OnErr result
        (StoresPart before (F.holds folder.new) name.now (compiled_text found.now.digest found.now.model)) }
    ensures writing { let layer_count = found.now.model.grid.horizon + 1 in
        OnOk result (IsCompiling found.now.digest found.now.model layer_count begun.new.writer) }
    ensures frame { OnlyWrites F.Folder folder.old folder.new (IsErr result) }
    ensures counted { OnOk result (backups.new ≡ backups.old + backup_count found.now.model) }
    ensures turns { OnOk result (turned.new ≡ turned.old + entries found.now.model.grid) }
    ensures rising { backups.old ≤ backups.new }
    ensures rising_turned { turned.old ≤ turned.new }
{
    let mut rows = TableRows {
        begun,
        folder,
        name,
    };
    match sweep_to(&found.model, sweep, &mut rows, backups, turned) {
        Ok(()) => Ok(()),
        Err(SweepFault::Rows) => Err(Failed),
    }
}
