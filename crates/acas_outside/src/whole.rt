//! Files that are read whole.
ghost use Rattle.std.specs.Prelude.{◌≡◌, ◌≤◌, ◌<◌, ◌^◌, ◌+◌, ◌-◌, [], ◌∷◌, IsTrue, IfOk, IsErrOf, length};
ghost use Rattle.acas_outside.specs.Counts.{raised};
ghost use Rattle.acas_outside.specs.Bytes.{IsBytes};
ghost use Rattle.acas_outside.specs.Files.{Given};
ghost use Rattle.acas_outside.specs.Frame.{OnlyReads};
ghost use Rattle.acas_outside.specs.Once.{TakesOnce, length_of_file};
ghost use Rattle.acas_outside.specs.Whole.{ReadsWhole, ReadsOn};

use crate::folder::{Folder, ReadMiss};
use std::alloc::Global;
use thiserror::Error;

/// Why a whole read gave no bytes.
#[derive(Clone, Copy, Debug, PartialEq, Eq, Error)]
pub enum ReadFault {
    /// The name is not held.
    #[error("the file is absent")]
    Absent = 1,
    /// A read failed.
    #[error("a read of the file failed")]
    Failed = 2,
    /// The file has more bytes than the limit.
    #[error("the file is too long")]
    TooLong = 3,
    /// Memory was refused.
    #[error("out of memory")]
    Memory = 4,
}

/// How many bytes one read asks for.
const PIECE: usize = 4096;

/// Reads all bytes of a file, up to its end, where it has at most `limit` of them.
///
/// It takes the bytes that it gives, and of a file that is too long one byte more than the limit: no byte is read
/// twice, and none behind that one. Whatever it answers, it takes no more bytes than the file has.
pub fn read_whole<F: Folder>(
    alloc: Global,
    folder: &mut F,
    name: &str,
    limit: u64,
) -> Result<Vec<u8>, ReadFault>
    requires served { IsTrue (F.serves folder.old name.now) }
    requires limit { limit ≤ 1000000000 }
    ensures given { Given (F.holds folder.old) name.now (λ file. ReadsWhole file limit result) }
    ensures bound { IfOk result (λ bytes. length bytes.items ≤ limit) }
    ensures bytes { IfOk result (λ bytes. IsBytes bytes.items) }
    ensures taken { IfOk result (λ bytes.
        F.taken folder.new ≡ raised (F.taken folder.old) (length bytes.items)) }
    ensures too_long { IsErrOf result ReadFault.TooLong →
        F.taken folder.new ≡ raised (F.taken folder.old) (limit + 1) }
    ensures most { F.taken folder.new ≤ raised (F.taken folder.old) (limit + 1) }
    ensures once { TakesOnce (name.now ∷ []) (F.holds folder.old) (F.taken folder.old) (F.taken folder.new) }
    ensures frame { OnlyReads F.Folder folder.old folder.new
        (IsErrOf result ReadFault.Failed) (IsErrOf result ReadFault.Absent) }
{
    let mut bytes = Vec::new(alloc);
    while bytes.len() as u64 <= limit {
        let room = limit as usize + 1 - bytes.len();
        if read_more(folder, name, &mut bytes, room)? == 0 {
            return Ok(bytes);
        }
    }
    Err(ReadFault::TooLong)
}

// Appends what one read gives behind the bytes that are read, and says how many these are. There are none only at
// the end.
fn read_more<F: Folder>(
    folder: &mut F,
    name: &str,
    bytes: &mut Vec<u8>,
    room: usize,
) -> Result<usize, ReadFault>
    requires served { IsTrue (F.serves folder.old name.now) }
    requires room { 0 < room }
    requires small { length bytes.old.items < 2 ^ 60 }
    ensures given { Given (F.holds folder.old) name.now (λ file.
        ReadsOn file bytes.old.items bytes.new.items result) }
    ensures bytes { IfOk result (λ n. IsBytes bytes.new.items) }
    ensures grows { IfOk result (λ n. length bytes.new.items ≡ length bytes.old.items + n) }
    ensures bound { IfOk result (λ n. n ≤ room) }
    ensures limit { IsErrOf result ReadFault.TooLong → ⊥ }
    ensures taken { IfOk result (λ n. F.taken folder.new ≡ raised (F.taken folder.old) n) }
    ensures most { F.taken folder.new ≤ raised (F.taken folder.old) room }
    ensures left { Given (F.holds folder.old) name.now (λ file. F.taken folder.new
        ≤ raised (F.taken folder.old) (length_of_file file - length bytes.old.items)) }
    ensures frame { OnlyReads F.Folder folder.old folder.new
        (IsErrOf result ReadFault.Failed) (IsErrOf result ReadFault.Absent) }
{
    let mut piece = [0u8; PIECE];
    let asked = room.min(PIECE);
    match folder.read(name, bytes.len() as u64, &mut piece[..asked]) {
        Ok(count) => match bytes.extend_from_slice(&piece[..count]) {
            Ok(()) => Ok(count),
            Err(_) => Err(ReadFault::Memory),
        },
        Err(ReadMiss::Absent) => Err(ReadFault::Absent),
        Err(ReadMiss::Failed) => Err(ReadFault::Failed),
    }
}
