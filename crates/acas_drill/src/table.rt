//! The table of a drill, in a folder of its own.
ghost use Rattle.std.specs.Prelude.{◌≡◌, IfOk, Some, length};
ghost use Rattle.std.specs.FinMap.{get};
ghost use Rattle.acas_base.specs.Advices.{AreAdvicesOf};
ghost use Rattle.acas_outside.specs.MemoryFolder.{folder_state};
ghost use Rattle.acas_process.specs.Compiled.{compiled};
ghost use Rattle.acas_table_text.specs.Shape.{shape_of};
ghost use Rattle.acas_table_text.specs.Format.{length_of};
ghost use Rattle.acas_table_text.specs.declared.format.Format.TheVariants.{Layered};
ghost use Rattle.acas_table_rows.specs.TableFile.{compiled_text};
ghost use Rattle.acas_table_file.specs.Worth.{AreTabled};

use acas_accept::{AcceptFault, accept};
use acas_base::Advices;
use acas_command::ModelFile;
use acas_means::LayerMeans;
use acas_outside::MemoryFolder;
use acas_plane::Turned;
use acas_sweep::{Backups, Sweep};
use acas_table_rows::store_swept;
use acas_table_writer::TableWriter;
use std::alloc::{AllocError, Global};

/// The name of the table in the folder of a drill.
const TABLE: &str = "table";

/// A table that was compiled, stored and accepted: how many bytes it has, and its advices.
#[derive(Drop)]
pub(crate) struct DrillTable {
    pub(crate) bytes: u64,
    pub(crate) advices: Advices,
}

/// Compiles a model into a folder in memory, and accepts the table from there. The folder fails only where it finds no
/// memory.
pub(crate) fn drill_table<M: LayerMeans>(
    alloc: Global,
    found: &ModelFile,
) -> Result<DrillTable, AllocError>
    requires { length found.now.digest ≡ 32 }
    ensures bytes { IfOk result (λ table. table.bytes ≡ length_of Layered (shape_of found.now.model.grid)) }
    ensures fits { IfOk result (λ table. AreAdvicesOf found.now.model table.advices) }
    ensures tabled { IfOk result (λ table.
        AreTabled found.now.model (compiled found.now.model) table.advices) }
{
    let mut sweep = Sweep::<M>::make(alloc, &found.model)?;
    let writer = TableWriter::new(alloc, &found.model, &found.digest)?;
    let mut folder = new_folder(alloc)?;
    // Nobody asks how much work a drill does.
    let mut backups = Backups::new();
    let mut turned = Turned::new();
    let Ok(bytes) = store_swept(
        found,
        &mut sweep,
        writer,
        &mut folder,
        TABLE,
        &mut backups,
        &mut turned,
    ) else {
        return Err(AllocError);
    };
    let advices = accepted_advices::<M>(alloc, found, &mut folder)?;
    Ok(DrillTable { bytes, advices })
}

// A folder in memory of which no call is listed to fail.
fn new_folder(alloc: Global) -> Result<MemoryFolder, AllocError> {
    let (reads, creates, appends) = (Vec::new(alloc), Vec::new(alloc), Vec::new(alloc));
    MemoryFolder::new(alloc, reads, creates, appends, u32::MAX)
}

// The advices of the compiled table of a model, which the folder holds.
fn accepted_advices<M: LayerMeans>(
    alloc: Global,
    found: &ModelFile,
    folder: &mut MemoryFolder,
) -> Result<Advices, AllocError>
    requires digest { length found.now.digest ≡ 32 }
    requires held { let text = compiled_text found.now.digest found.now.model in
        get (folder_state folder.old).files TABLE.now ≡ Some text }
    ensures fits { IfOk result (AreAdvicesOf found.now.model) }
    ensures tabled { IfOk result (AreTabled found.now.model (compiled found.now.model)) }
{
    // Opens the model's limits: the compiled table of such a model is accepted.
    let _ = found.model.grid();
    match accept::<M, MemoryFolder>(alloc, &found.model, &found.digest, folder, TABLE) {
        Ok(advices) => Ok(advices),
        // No read of such a folder is listed to fail.
        Err(AcceptFault::Failed | AcceptFault::Memory) => Err(AllocError),
        Err(AcceptFault::Absent) => unreachable!(),
        Err(AcceptFault::Refused(_)) => unreachable!(),
    }
}
