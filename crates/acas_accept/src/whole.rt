//! A whole table, read and checked entry by entry.
ghost use Rattle.std.specs.Prelude.{◌+◌, IsTrue, IsErrOf, IfErr, IfOk};
ghost use Rattle.acas_base.specs.Advices.{AreAdvicesOf};
ghost use Rattle.acas_outside.specs.Files.{Given};
ghost use Rattle.acas_outside.specs.Frame.{OnlyReads};
ghost use Rattle.acas_table_text.specs.Shape.{shape_of};
ghost use Rattle.acas_accept.specs.Answers.{Accepts, AcceptsLayers, AreAllowed, AreWhole, Gives, ReadsOnce};
ghost use Rattle.acas_accept.specs.Faults.{IsAnswerable};

use crate::check::TableCheck;
use crate::keeping::KeepsLayers;
use crate::refusal::{AcceptFault, refused};
use acas_base::{Advices, Layers, Model};
use acas_means::LayerMeans;
use acas_outside::Folder;
use acas_table::TableReader;
use std::alloc::Global;

// Reads and checks a whole table, and gives what is kept of its layers.
fn accept_keeping<M: LayerMeans, K: KeepsLayers, F: Folder>(
    alloc: Global,
    model: &Model,
    digest: &[u8; 32],
    folder: &mut F,
    name: &str,
) -> Result<K, AcceptFault>
    requires served { IsTrue (F.serves folder.old name.now) }
    ensures given { let all = model.now.grid.horizon + 1 in Given (F.holds folder.old) name.now (λ file.
        Gives (λ bytes kept. K.is_of kept model.now bytes all) model.now digest.now file result) }
    ensures kept { IfOk result (λ kept. K.was_given kept model.now (model.now.grid.horizon + 1)) }
    ensures once { ReadsOnce F.Folder folder.old folder.new name.now (shape_of model.now.grid) result }
    ensures kind { IfErr result IsAnswerable }
    ensures frame { OnlyReads F.Folder folder.old folder.new
        (IsErrOf result AcceptFault.Failed) (IsErrOf result AcceptFault.Absent) }
{
    let reader = match TableReader::start(alloc, model, digest, folder, name) {
        Ok(reader) => reader,
        Err(fault) => return Err(refused(fault)),
    };
    let mut check = TableCheck::new(alloc, model, reader)?;
    let mut kept = K::make(alloc, model)?;
    let layer_means = M::make(alloc, model)?;
    check.layers(model, &layer_means, &mut kept, folder, name)?;
    check.finish(folder, name)?;
    Ok(kept)
}

/// Reads and checks a whole table of a model, whose text has this digest, in either format. Each entry is looked at
/// before the next is read: its bytes, its advice, and its soundness. It takes what forms the model's means, two
/// layers, a byte for each advice, a byte for each state, 8 bytes for each vertex and the reader's buffer, and gives the
/// advices of the layers from 1 on.
///
/// Over every folder, an accepted table is read once, and of no file is more read than one byte more than the length of
/// a table of the version that it names. Where the folder tells the file, no more is read than it has.
pub fn accept<M: LayerMeans, F: Folder>(
    alloc: Global,
    model: &Model,
    digest: &[u8; 32],
    folder: &mut F,
    name: &str,
) -> Result<Advices, AcceptFault>
    requires served { IsTrue (F.serves folder.old name.now) }
    ensures given { Given (F.holds folder.old) name.now (λ file. Accepts model.now digest.now file result) }
    ensures advices { IfOk result (λ advices. AreAdvicesOf model.now advices) }
    ensures allowed { IfOk result (λ advices. AreAllowed model.now advices) }
    ensures once { ReadsOnce F.Folder folder.old folder.new name.now (shape_of model.now.grid) result }
    // A refusal is one of the bytes, over every folder.
    ensures kind { IfErr result IsAnswerable }
    ensures frame { OnlyReads F.Folder folder.old folder.new
        (IsErrOf result AcceptFault.Failed) (IsErrOf result AcceptFault.Absent) }
{
    accept_keeping::<M, Advices, F>(alloc, model, digest, folder, name)
}

/// Reads and checks a whole table of a model, as `accept` does, and gives all its layers. It takes 17 bytes for each
/// entry in the place of a byte for each advice.
pub fn accept_layers<M: LayerMeans, F: Folder>(
    alloc: Global,
    model: &Model,
    digest: &[u8; 32],
    folder: &mut F,
    name: &str,
) -> Result<Layers, AcceptFault>
    requires served { IsTrue (F.serves folder.old name.now) }
    ensures given { Given (F.holds folder.old) name.now (λ file.
        AcceptsLayers model.now digest.now file result) }
    ensures whole { IfOk result (λ layers. AreWhole model.now layers) }
    ensures once { ReadsOnce F.Folder folder.old folder.new name.now (shape_of model.now.grid) result }
    ensures kind { IfErr result IsAnswerable }
    ensures frame { OnlyReads F.Folder folder.old folder.new
        (IsErrOf result AcceptFault.Failed) (IsErrOf result AcceptFault.Absent) }
{
    accept_keeping::<M, Layers, F>(alloc, model, digest, folder, name)
}
