//! Tables that are written and read again. The bytes and digests are from outside the program.
ghost use Rattle.std.specs.Prelude.{◌≡◌, ◌<◌, IsTrue, false};
ghost use Rattle.acas_table.specs.Reader.{reader_state};
ghost use Rattle.acas_table_text.specs.Shape.{entry_count};

use crate::layers::{Layers, MODEL, folder_with, write_table};
use crate::models::NOISY;
use acas_base::Model;
use acas_outside::{Folder, MemoryFolder};
use acas_table::{TableFault, TableReader};
use acas_tests_data::model_of;
use acas_units::{Entry, Pair};
use std::alloc::Global;

// The last bytes of a table of three layers in version 1.
const DIGEST: [u8; 32] = [
    0x0a, 0xe2, 0x63, 0x97, 0x21, 0x53, 0x9f, 0x24, 0x24, 0xf1, 0x45, 0xab, 0x64, 0x00, 0xa3, 0xab,
    0x7b, 0xbb, 0xcb, 0x04, 0x3e, 0xf6, 0xe4, 0x36, 0x83, 0x55, 0xe6, 0xb1, 0x09, 0x46, 0x1b, 0x7f,
];

// The last bytes of these layers in version 2.
const LAST_OF_CHAIN: [u8; 32] = [
    0x62, 0x9b, 0xb3, 0x29, 0xeb, 0x6f, 0x43, 0xb5, 0x84, 0x04, 0x96, 0x6c, 0x3d, 0x3e, 0xf4, 0x6e,
    0x53, 0x9f, 0xe9, 0x92, 0xea, 0x4b, 0x89, 0x21, 0x65, 0xab, 0xe4, 0x64, 0x6e, 0xe0, 0x3c, 0x70,
];

// Of each version whether it is the second, the length of a table of three layers, and its last bytes.
const VERSIONS: [(bool, usize, [u8; 32]); 2] = [(false, 908, DIGEST), (true, 972, LAST_OF_CHAIN)];

// In each layer the upper values from 666666 on and the lower ones from 666665 on.
macro_rules! rising {
    ($($state:literal)*) => {
        [$(Pair { upper: 666_666 + $state, lower: 666_665 + $state }),*]
    };
}

const RISING: [Pair; 16] = rising!(0 1 2 3 4 5 6 7 8 9 10 11 12 13 14 15);

const LAYERS: Layers = Layers {
    pairs: [RISING; 3],
    advice: [[255; 16], [0; 16], [0; 16]],
};

// The same with an advice in the first layer, where none may stand.
const ADVISED: Layers = Layers {
    pairs: [RISING; 3],
    advice: [[1; 16], [0; 16], [0; 16]],
};

// Whether a table begins as one of the first version does.
fn begins_as_first(bytes: &[u8]) -> bool {
    bytes.starts_with(b"ACXT\x01\0\0\0") && bytes.get(8..40) == Some(MODEL.as_slice())
}

// Whether these are the bytes of a table of a version.
fn are_bytes(bytes: &[u8], is_second: bool, length: usize, last: &[u8; 32]) -> bool {
    (is_second || begins_as_first(bytes)) && bytes.len() == length && bytes.ends_with(last)
}

fn has_bytes(alloc: Global, is_second: bool, length: usize, last: &[u8; 32]) -> Option<bool> {
    let model = model_of(alloc, NOISY)?;
    let folder = folder_with(alloc, &model, &LAYERS, is_second, 100)?;
    Some(are_bytes(folder.get("t")?, is_second, length, last))
}

#[test]
fn tables_have_their_bytes(rt: HostRuntime) {
    for (is_second, length, last) in VERSIONS {
        assert!(rt; has_bytes(rt.alloc(), is_second, length, &last) == Some(true));
    }
}

// The entry of the second state in each layer above the first.
const SECOND: Entry = Entry {
    pair: Pair {
        upper: 666_667,
        lower: 666_666,
    },
    advice: 0,
};

// Whether an entry is that of its place, where it is the last of the first layer or the second of the next.
fn is_in_place(place: u32, entry: Entry) -> bool {
    match place {
        15 => entry.advice == 255,
        17 => entry == SECOND,
        _ => true,
    }
}

// Whether the 48 entries of a reader that has given none are in their places.
fn read_rest<F: Folder>(
    reader: &mut TableReader,
    folder: &mut F,
    name: &str,
) -> Result<bool, TableFault>
    requires served { IsTrue (F.serves folder.old name.now) }
    requires none_given { (reader_state reader.old).given ≡ 0 }
    requires not_done { (reader_state reader.old).done ≡ false }
    requires count { entry_count (reader_state reader.old).shape ≡ 48 }
{
    let mut same = true;
    for place in 0..48 {
        let entry = reader.entry(folder, name)?;
        same = same && is_in_place(place, entry);
    }
    reader.finish(folder, name)?;
    Ok(same)
}

// Whether the entries of a table of a model of 16 states whose horizon is 2 are in their places.
fn read_three<F: Folder>(
    alloc: Global,
    model: &Model,
    folder: &mut F,
    name: &str,
) -> Result<bool, TableFault>
    requires { IsTrue (F.serves folder.old name.now) }
{
    let grid = model.grid();
    if grid.states() != 16 || grid.horizon != 2 {
        return Err(TableFault::Magic);
    }
    let mut reader = TableReader::start(alloc, model, &MODEL, folder, name)?;
    read_rest(&mut reader, folder, name)
}

// The versions and the numbers of bytes a call at which tables are written and read.
const READINGS: [(bool, u32); 5] = [
    (false, 1),
    (false, 100),
    (false, 4_096),
    (true, 1),
    (true, 100),
];

// Whether a table is read as it was written.
fn is_read_back(alloc: Global, is_second: bool, most: u32) -> Option<bool> {
    let model = model_of(alloc, NOISY)?;
    let mut folder = folder_with(alloc, &model, &LAYERS, is_second, most)?;
    read_three(alloc, &model, &mut folder, "t").ok()
}

#[test]
fn tables_are_read_as_they_were_written(rt: HostRuntime) {
    for (is_second, most) in READINGS {
        assert!(rt; is_read_back(rt.alloc(), is_second, most) == Some(true));
    }
}

const FAULT: TableFault = TableFault::Advice {
    layer: 0,
    state: 0,
    byte: 1,
};

// Whether a reader finds the fault, and finds it again where a table without it stands in the place of the first.
fn finds_twice(
    alloc: Global,
    model: &Model,
    reader: &mut TableReader,
    folder: &mut MemoryFolder,
) -> Option<bool>
    requires more { (reader_state reader.old).given < entry_count (reader_state reader.old).shape }
    requires not_done { (reader_state reader.old).done ≡ false }
{
    if reader.entry(folder, "t") != Err(FAULT) {
        return Some(false);
    }
    write_table(alloc, model, &LAYERS, false, folder)?;
    Some(reader.entry(folder, "t") == Err(FAULT))
}

fn keeps_fault(alloc: Global) -> Option<bool> {
    let model = model_of(alloc, NOISY)?;
    let mut folder = folder_with(alloc, &model, &ADVISED, false, 10)?;
    let mut reader = TableReader::start(alloc, &model, &MODEL, &mut folder, "t").ok()?;
    finds_twice(alloc, &model, &mut reader, &mut folder)
}

#[test]
fn a_fault_stays(rt: HostRuntime) {
    assert!(rt; keeps_fault(rt.alloc()) == Some(true));
}
