//! Tables of three layers of 16 states, as the writer makes them.
ghost use Rattle.std.specs.Prelude.{◌≡◌, [], IsTrue};
ghost use Rattle.acas_table_writer.specs.Writer.{writer_state, HasWritten};

use acas_base::Model;
use acas_outside::{Failed, Folder, MemoryFolder};
use acas_sweep::Layers as TableLayers;
use acas_table_writer::{Phase, TableWriter};
use acas_units::Pair;
use std::alloc::{AllocError, Global};

/// The digest of the model's text.
pub const MODEL: [u8; 32] = [7; 32];

/// The values and advices of three layers of 16 states.
#[derive(Clone, Copy)]
pub struct Layers {
    pub pairs: [[Pair; 16]; 3],
    pub advice: [[u8; 16]; 3],
}

/// Whether a table has a layer, and these pairs and advices in it.
pub fn is_layer(table: &TableLayers, n: u32, pairs: &[Pair], advice: &[u8]) -> bool {
    n < table.len() && table.pairs(n) == pairs && table.advice(n) == advice
}

// A folder whose calls take or give at most so many bytes.
fn folder_of(alloc: Global, most: u32) -> Result<MemoryFolder, AllocError> {
    MemoryFolder::new(
        alloc,
        Vec::new(alloc),
        Vec::new(alloc),
        Vec::new(alloc),
        most.max(1),
    )
}

// Writes a table of three layers, and gives its length.
fn write_three<F: Folder>(
    writer: &mut TableWriter,
    layers: &Layers,
    folder: &mut F,
    name: &str,
) -> Result<u64, Failed>
    requires served { IsTrue (F.serves folder.old name.now) }
    requires new { (writer_state writer.old).phase ≡ Phase.New }
    requires written { HasWritten writer.old [] }
    requires states { (writer_state writer.old).shape.states ≡ 16 }
    requires horizon { (writer_state writer.old).shape.horizon ≡ 2 }
{
    writer.start(folder, name)?;
    writer.layer(folder, name, &layers.pairs[0], &layers.advice[0])?;
    writer.layer(folder, name, &layers.pairs[1], &layers.advice[1])?;
    writer.layer(folder, name, &layers.pairs[2], &layers.advice[2])?;
    writer.finish(folder, name)
}

/// Writes a table of the second version or of the first under the name t, of a model of 16 states whose horizon is 2, if its length
/// is told as it is.
pub fn write_table(
    alloc: Global,
    model: &Model,
    layers: &Layers,
    is_second: bool,
    folder: &mut MemoryFolder,
) -> Option<()> {
    let grid = model.grid();
    if grid.states() != 16 || grid.horizon != 2 {
        return None;
    }
    let made = if is_second {
        TableWriter::new(alloc, model, &MODEL)
    } else {
        TableWriter::of_version(alloc, model, &MODEL, 1)
    };
    let mut writer = made.ok()?;
    let length = write_three(&mut writer, layers, folder, "t").ok()?;
    if folder.get("t")?.len() as u64 == length {
        Some(())
    } else {
        None
    }
}

/// A folder with such a table, whose calls take or give at most so many bytes.
pub fn folder_with(
    alloc: Global,
    model: &Model,
    layers: &Layers,
    is_second: bool,
    most: u32,
) -> Option<MemoryFolder> {
    let mut folder = folder_of(alloc, most).ok()?;
    write_table(alloc, model, layers, is_second, &mut folder)?;
    Some(folder)
}
