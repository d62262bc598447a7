//! The path of a key or an item, and the fault at it.
ghost use Rattle.std.specs.Prelude.{◌≡◌, IfOk};
ghost use Rattle.acas_doc.specs.Paths.{key_path, item_path};
ghost use Rattle.acas_doc.specs.Answers.{Stands};

use crate::fault::{DocError, DocFault, DocKind};
use acas_spec::Text;
use std::alloc::{AllocError, Global};

/// The path of a key of the table at a path: the key alone in the document itself, whose path is empty, and else the
/// table's path, a point and the key.
pub fn path_of_key(alloc: Global, path: &[u8], key: &str) -> Result<Text, AllocError>
    ensures { IfOk result (λ t. t ≡ key_path path.now key.now) }
{
    let mut bytes = Vec::new(alloc);
    if !path.is_empty() {
        bytes.extend_from_slice(path)?;
        bytes.push(b'.')?;
    }
    bytes.extend_from_slice(key.as_bytes())?;
    Ok(Text::new(bytes))
}

/// The path of an item of the list at a path: the list's path and the item's place, counted from 0, in brackets.
pub fn path_of_item(alloc: Global, path: &[u8], place: u32) -> Result<Text, AllocError>
    ensures { IfOk result (λ t. t ≡ item_path path.now place) }
{
    let number = place.to_string(alloc)?;
    let mut bytes = Vec::from_slice(alloc, path)?;
    bytes.push(b'[')?;
    bytes.extend_from_slice(number.as_bytes())?;
    bytes.push(b']')?;
    Ok(Text::new(bytes))
}

/// The fault of this kind at a key of the table at a path.
pub fn fault_at(alloc: Global, path: &[u8], key: &str, kind: DocKind) -> DocError
    ensures { Stands (record { key = key_path path.now key.now; kind = kind }) result }
{
    match path_of_key(alloc, path, key) {
        Ok(key) => DocError::Fault(DocFault { key, kind }),
        Err(_) => DocError::Memory,
    }
}

/// The fault of this kind at a place of the list at a path.
pub(crate) fn item_fault(alloc: Global, path: &[u8], place: u32, kind: DocKind) -> DocError
    ensures { Stands (record { key = item_path path.now place; kind = kind }) result }
{
    match path_of_item(alloc, path, place) {
        Ok(key) => DocError::Fault(DocFault { key, kind }),
        Err(_) => DocError::Memory,
    }
}
