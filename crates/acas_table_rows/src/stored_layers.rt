//! The file of a table whose layers are at hand.
ghost use Rattle.std.specs.Prelude.{[], ◌≡◌, ◌⊎◌, ◌+◌, IsTrue, IsErr, IfOk, OnOk, OnErr};
ghost use Rattle.acas_outside.specs.Files.{Stores, StoresPart};
ghost use Rattle.acas_outside.specs.Frame.{OnlyWrites};
ghost use Rattle.acas_spec.specs.Model.{states};
ghost use Rattle.acas_table_text.specs.Shape.{shape_of};
ghost use Rattle.acas_table_text.specs.Format.{length_of};
ghost use Rattle.acas_table_text.specs.declared.format.Format.TheVariants.{Layered};
ghost use Rattle.acas_table_writer.specs.Writer.{HasWritten, new_writer, writer_state};
ghost use Rattle.acas_table_rows.specs.TableFile.{entries_of, text_of_all};

use acas_base::Layers;
use acas_command::ModelFile;
use acas_outside::{Failed, Folder};
use acas_table_writer::TableWriter;

/// Stores a table of a model in version 2, whose layers are all at hand, and answers its length. Where it fails, the
/// name holds what it held, or a proper prefix of the table's text. It takes no memory.
pub fn store_layers<F: Folder>(
    found: &ModelFile,
    layers: &Layers,
    writer: TableWriter,
    folder: &mut F,
    name: &str,
) -> Result<u64, Failed>
    requires served { IsTrue (F.serves folder.old name.now) }
    requires count { layers.now.count ≡ found.now.model.grid.horizon + 1 }
    requires states { layers.now.states ≡ states found.now.model.grid }
    requires state { writer_state writer
        ≡ new_writer Layered found.now.digest (shape_of found.now.model.grid) }
    requires written { HasWritten writer [] }
    ensures ok { let text =
        text_of_all found.now.digest (shape_of found.now.model.grid) (entries_of layers.now) in
        OnOk result (Stores (F.holds folder.old) (F.holds folder.new) name.now text) }
    ensures err { let text =
        text_of_all found.now.digest (shape_of found.now.model.grid) (entries_of layers.now) in
        OnErr result ((F.holds folder.new ≡ F.holds folder.old)
        ⊎ StoresPart (F.holds folder.old) (F.holds folder.new) name.now text) }
    ensures length { IfOk result (λ n. n ≡ length_of Layered (shape_of found.now.model.grid)) }
    ensures frame { OnlyWrites F.Folder folder.old folder.new (IsErr result) }
{
    let mut begun = writer;
    begun.start(folder, name)?;
    for n in 0..found.model.grid().horizon + 1 {
        begun.layer(folder, name, layers.pairs(n), layers.advice(n))?;
    }
    begun.finish(folder, name)
}
