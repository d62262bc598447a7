//! The file of a model.
ghost use Rattle.std.specs.Prelude.{◌≡◌, [], ◌∷◌, IsTrue, IfOk, IfErr, IsErrOf};
ghost use Rattle.acas_spec.specs.Limits.{IsModel};
ghost use Rattle.acas_outside.specs.Files.{Given};
ghost use Rattle.acas_outside.specs.Frame.{OnlyReads};
ghost use Rattle.acas_outside.specs.Once.{TakesOnce};
ghost use Rattle.acas_command.specs.Answers.{EndsLooking};
ghost use Rattle.acas_command.specs.ModelFile.{IsModelFile, RefusesModel};
ghost use Rattle.acas_command.specs.Outside.{beside};

use crate::status::{Cause, FileRole};
use crate::text_file::read_text_file;
use acas_base::Model;
use acas_model::{ModelFault, read_model};
use acas_outside::Folder;
use sha2::{Digest, Sha256};
use std::alloc::Global;

/// A model, and the digest of its text.
#[derive(Drop)]
pub struct ModelFile {
    pub model: Model,
    pub digest: [u8; 32],
}

/// Reads the file of a model, or gives the cause that ends every command that reads one.
pub fn read_model_file<F: Folder>(
    alloc: Global,
    name: &str,
    folder: &mut F,
) -> Result<ModelFile, Cause>
    requires { IsTrue (F.serves folder.old name.now) }
    ensures ok { IfOk result (λ found.
        Given (F.holds folder.old) name.now (λ file. IsModelFile file found.digest found.model)) }
    ensures within { IfOk result (λ found. IsModel found.model) }
    ensures err { IfErr result (λ cause.
        RefusesModel name.now cause (beside F.Folder folder.old) (beside F.Folder folder.new)) }
    ensures refused { IfErr result EndsLooking }
    ensures once { TakesOnce (name.now ∷ []) (F.holds folder.old) (F.taken folder.old) (F.taken folder.new) }
    ensures frame { OnlyReads F.Folder folder.old folder.new
        (IsErrOf result Cause.Folder) (IsErrOf result (Cause.Absent FileRole.Model)) }
{
    let bytes = read_text_file(alloc, FileRole::Model, name, folder)?;
    match read_model(alloc, &bytes) {
        Ok(model) => Ok(ModelFile {
            model,
            digest: Sha256::digest(&bytes),
        }),
        Err(ModelFault::Memory) => Err(Cause::Memory),
        Err(fault) => Err(Cause::Model(fault)),
    }
}
