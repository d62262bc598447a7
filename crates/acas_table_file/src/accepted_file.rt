//! The file of a table that is read.
ghost use Rattle.std.specs.Prelude.{◌≡◌, [], ◌∷◌, IsTrue, IfOk, IfErr, IsErrOf};
ghost use Rattle.acas_base.specs.Advices.{AreAdvicesOf};
ghost use Rattle.acas_outside.specs.Files.{Given};
ghost use Rattle.acas_outside.specs.Frame.{OnlyReads};
ghost use Rattle.acas_outside.specs.Once.{TakesOnce};
ghost use Rattle.acas_command.specs.Answers.{EndsLooking};
ghost use Rattle.acas_table_file.specs.AcceptedFile.{IsTableFile, RefusesTable};
ghost use Rattle.acas_command.specs.Outside.{beside};

use acas_accept::{AcceptFault, accept};
use acas_base::Advices;
use acas_command::{Cause, FileRole, ModelFile};
use acas_means::LayerMeans;
use acas_outside::Folder;
use std::alloc::Global;

/// Reads and checks the file of a table and gives its advices, or gives the cause that ends every command that reads
/// one.
pub fn read_table_file<M: LayerMeans, F: Folder>(
    alloc: Global,
    found: &ModelFile,
    name: &str,
    folder: &mut F,
) -> Result<Advices, Cause>
    requires { IsTrue (F.serves folder.old name.now) }
    ensures ok { IfOk result (λ advices. Given (F.holds folder.old) name.now
        (λ file. IsTableFile found.now.model found.now.digest file advices)) }
    ensures advices { IfOk result (λ advices. AreAdvicesOf found.now.model advices) }
    ensures err { IfErr result (λ cause. RefusesTable found.now.model found.now.digest name.now cause
        (beside F.Folder folder.old) (beside F.Folder folder.new)) }
    ensures refused { IfErr result EndsLooking }
    ensures once { TakesOnce (name.now ∷ []) (F.holds folder.old) (F.taken folder.old) (F.taken folder.new) }
    ensures frame { OnlyReads F.Folder folder.old folder.new
        (IsErrOf result Cause.Folder) (IsErrOf result (Cause.Absent FileRole.Table)) }
{
    match accept::<M, F>(alloc, &found.model, &found.digest, folder, name) {
        Ok(advices) => Ok(advices),
        Err(AcceptFault::Refused(refusal)) => Err(Cause::Table(refusal)),
        Err(AcceptFault::Absent) => Err(Cause::Absent(FileRole::Table)),
        Err(AcceptFault::Failed) => Err(Cause::Folder),
        Err(AcceptFault::Memory) => Err(Cause::Memory),
    }
}
