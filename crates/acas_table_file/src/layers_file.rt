//! The file of a table of which all layers are read.
ghost use Rattle.std.specs.Prelude.{◌≡◌, [], ◌∷◌, IsTrue, IfOk, IfErr, IsErrOf};
ghost use Rattle.acas_outside.specs.Files.{Given};
ghost use Rattle.acas_outside.specs.Frame.{OnlyReads};
ghost use Rattle.acas_outside.specs.Once.{TakesOnce};
ghost use Rattle.acas_accept.specs.Answers.{AreWhole};
ghost use Rattle.acas_command.specs.Answers.{EndsLooking};
ghost use Rattle.acas_table_file.specs.AcceptedFile.{IsLayersFile, RefusesTable};
ghost use Rattle.acas_command.specs.Outside.{beside};

use acas_accept::{AcceptFault, accept_layers};
use acas_base::Layers;
use acas_command::{Cause, FileRole, ModelFile};
use acas_means::LayerMeans;
use acas_outside::Folder;
use std::alloc::Global;

/// Reads and checks the file of a table and gives its layers, or gives the cause that ends every command that reads
/// one.
pub fn read_table_layers<M: LayerMeans, F: Folder>(
    alloc: Global,
    found: &ModelFile,
    name: &str,
    folder: &mut F,
) -> Result<Layers, Cause>
    requires { IsTrue (F.serves folder.old name.now) }
    ensures ok { IfOk result (λ layers. Given (F.holds folder.old) name.now
        (λ file. IsLayersFile found.now.model found.now.digest file layers)) }
    ensures whole { IfOk result (λ layers. AreWhole found.now.model layers) }
    ensures err { IfErr result (λ cause. RefusesTable found.now.model found.now.digest name.now cause
        (beside F.Folder folder.old) (beside F.Folder folder.new)) }
    ensures refused { IfErr result EndsLooking }
    ensures once { TakesOnce (name.now ∷ []) (F.holds folder.old) (F.taken folder.old) (F.taken folder.new) }
    ensures frame { OnlyReads F.Folder folder.old folder.new
        (IsErrOf result Cause.Folder) (IsErrOf result (Cause.Absent FileRole.Table)) }
{
    match accept_layers::<M, F>(alloc, &found.model, &found.digest, folder, name) {
        Ok(layers) => Ok(layers),
        Err(AcceptFault::Refused(refusal)) => Err(Cause::Table(refusal)),
        Err(AcceptFault::Absent) => Err(Cause::Absent(FileRole::Table)),
        Err(AcceptFault::Failed) => Err(Cause::Folder),
        Err(AcceptFault::Memory) => Err(Cause::Memory),
    }
}
