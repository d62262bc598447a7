//! Bytes that are stored in a folder, over short writes.
ghost use Rattle.std.specs.Prelude.{◌≡◌, ◌⊎◌, IsErr, IsSome, IsTrue, OnErr, OnOk};
ghost use Rattle.acas_outside.specs.Files.{Given, Grows, GrowsPart, Stores, StoresPart};
ghost use Rattle.acas_outside.specs.Frame.{OnlyWrites};

use crate::folder::Folder;
use crate::sink::Failed;

/// Appends all bytes to a file that is held, over short writes. Where it fails, it has appended a proper prefix of
/// them.
pub fn write_piece<F: Folder>(folder: &mut F, name: &str, bytes: &[u8]) -> Result<(), Failed>
    requires served { IsTrue (F.serves folder.old name.now) }
    requires held { Given (F.holds folder.old) name.now (λ file. IsSome file) }
    ensures ok { OnOk result (Grows (F.holds folder.old) (F.holds folder.new) name.now bytes.now) }
    ensures err { OnErr result (GrowsPart (F.holds folder.old) (F.holds folder.new) name.now bytes.now) }
    ensures frame { OnlyWrites F.Folder folder.old folder.new (IsErr result) }
{
    let mut at = 0;
    while at < bytes.len() {
        let count = folder.append(name, &bytes[at..])?;
        if count == 0 {
            return Err(Failed);
        }
        at += count;
    }
    Ok(())
}

/// Makes a name hold these bytes. Where it fails, the name holds what it held, or a proper prefix of these
/// bytes.
pub fn store_file<F: Folder>(folder: &mut F, name: &str, bytes: &[u8]) -> Result<(), Failed>
    requires { IsTrue (F.serves folder.old name.now) }
    ensures ok { OnOk result (Stores (F.holds folder.old) (F.holds folder.new) name.now bytes.now) }
    ensures err { OnErr result ((F.holds folder.new ≡ F.holds folder.old)
        ⊎ StoresPart (F.holds folder.old) (F.holds folder.new) name.now bytes.now) }
    ensures frame { OnlyWrites F.Folder folder.old folder.new (IsErr result) }
{
    folder.create(name)?;
    write_piece(folder, name, bytes)
}
