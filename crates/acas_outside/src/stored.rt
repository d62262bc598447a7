//! Files by name, as a map keeps them.
ghost use Rattle.std.specs.Prelude.{◌≡◌, ◌++◌, [], IsSome, OnOk, OnErr, unwrap_or};
ghost use Rattle.std.specs.Option.{option_copied};
ghost use Rattle.std.specs.FinMap as map;
ghost use Rattle.acas_outside.specs.Files.{grown};
ghost use Rattle.acas_outside.specs.Stored.{files_of};

use std::alloc::{AllocError, Global};
use std::collections::BTreeMap;

pub(crate) type Stored = BTreeMap<String, Vec<u8>>;

pub(crate) fn find<'f>(files: &'f Stored, name: &str) -> Option<&'f [u8]>
    ensures { option_copied result ≡ map.get (files_of files.now) name.now }
{
    match files.get(name) {
        Some(bytes) => Some(bytes.as_slice()),
        None => None,
    }
}

pub(crate) fn store(
    alloc: Global,
    files: &mut Stored,
    name: &str,
    bytes: Vec<u8>,
) -> Result<(), AllocError>
    ensures ok { OnOk result (files_of files.new ≡ map.insert (files_of files.old) name.now bytes.items) }
    ensures err { OnErr result (files_of files.new ≡ files_of files.old) }
{
    let key = String::from_str(alloc, name)?;
    files.insert(key, bytes)?;
    Ok(())
}

pub(crate) fn grow(files: &mut Stored, name: &str, bytes: &[u8]) -> Result<(), AllocError>
    requires held { IsSome (map.get (files_of files.old) name.now) }
    ensures ok { OnOk result (files_of files.new ≡ grown (files_of files.old) name.now bytes.now) }
    ensures err { OnErr result (files_of files.new ≡ files_of files.old) }
{
    match files.get_mut(name) {
        Some(file) => {
            file.extend_from_slice(bytes)?;
            Ok(())
        }
        None => Ok(()),
    }
}
