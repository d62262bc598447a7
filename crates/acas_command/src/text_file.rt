//! The text files of a command.
ghost use Rattle.std.specs.Prelude.{◌≡◌, [], ◌∷◌, IsTrue, IfOk, IfErr, IsErrOf};
ghost use Rattle.acas_outside.specs.Files.{Given};
ghost use Rattle.acas_outside.specs.Frame.{OnlyReads};
ghost use Rattle.acas_outside.specs.Once.{TakesOnce};
ghost use Rattle.acas_command.specs.Answers.{EndsLooking};
ghost use Rattle.acas_command.specs.Outside.{beside};
ghost use Rattle.acas_command.specs.TextFile.{IsTextFile, RefusesText};

use crate::status::{Cause, FileRole};
use acas_outside::{Folder, ReadFault, read_whole};
use acas_units::TEXT_BYTES;
use std::alloc::Global;

/// Reads the bytes of a text file, of which there are at most `TEXT_BYTES`, or gives the cause that ends every command that reads a
/// file as this.
pub fn read_text_file<F: Folder>(
    alloc: Global,
    role: FileRole,
    name: &str,
    folder: &mut F,
) -> Result<Vec<u8>, Cause>
    requires { IsTrue (F.serves folder.old name.now) }
    ensures ok { IfOk result (λ bytes.
        Given (F.holds folder.old) name.now (λ file. IsTextFile file bytes.items)) }
    ensures err { IfErr result (λ cause.
        RefusesText role name.now cause (beside F.Folder folder.old) (beside F.Folder folder.new)) }
    ensures refused { IfErr result EndsLooking }
    ensures once { TakesOnce (name.now ∷ []) (F.holds folder.old) (F.taken folder.old) (F.taken folder.new) }
    ensures frame { OnlyReads F.Folder folder.old folder.new
        (IsErrOf result Cause.Folder) (IsErrOf result (Cause.Absent role)) }
{
    match read_whole(alloc, folder, name, TEXT_BYTES) {
        Ok(bytes) => Ok(bytes),
        Err(ReadFault::Absent) => Err(Cause::Absent(role)),
        Err(ReadFault::Failed) => Err(Cause::Folder),
        Err(ReadFault::TooLong) => Err(Cause::TooLong(role)),
        Err(ReadFault::Memory) => Err(Cause::Memory),
    }
}
