//! The fields behind a table's header.
ghost use Rattle.std.specs.Prelude.{◌≡◌, ◌≤◌, ◌<◌, ◌+◌, ◌/◌, ◌==◌, nat_lt, if◌then◌else◌, ⊤, IsTrue, OnOk};
ghost use Rattle.acas_outside.specs.Files.{Given};
ghost use Rattle.acas_table_text.specs.Shape.{IsShape};
ghost use Rattle.acas_table_text.specs.Format.{digest_start, ended_group, entry_start, group_size, hashed_from, last_group, length_of};
ghost use Rattle.acas_table_text.specs.Text.{entry_at};
ghost use Rattle.acas_table_text.specs.Faults.{bytes_fault, digest_fault, digest_field, entry_fault, tail_fault};
ghost use Rattle.acas_table.specs.Source.{IsAtFile, Checks, Finds, IsOfFormat, ReadsTable, StandsAt, Steps, bytes_taken};
ghost use Rattle.acas_table.specs.Standing.{IsEntryNumber, reading_mark, reading_start};

use crate::source::Source;
use acas_outside::Folder;
use acas_table_text::{Field, Format, TableFault, TableShape};
use acas_units::Entry;

/// Reads the digest of the group that ends before an entry, where one does, and the entry, by its number.
#[tactic(auto, using(crate::proofs::Standing::behind_ended, crate::proofs::Standing::start_behind))]
pub fn read_entry<F: Folder>(
    source: &mut Source,
    format: Format,
    shape: &TableShape,
    index: u32,
    ended: Option<u32>,
    folder: &mut F,
    name: &str,
) -> Result<Entry, TableFault>
    requires served { IsTrue (F.serves folder.old name.now) }
    requires entry { IsEntryNumber shape.now index }
    requires ended { ended ≡ ended_group format shape.now index }
    requires stands { StandsAt format shape.now source.old (reading_start format shape.now index ended) }
    requires mark { source.old.mark ≡ reading_mark format shape.now index ended }
    ensures given { Given (F.holds folder.old) name.now (λ file.
        IsAtFile source.old file → IsOfFormat format file →
        Checks (λ bytes. entry_fault shape.now bytes index)
        (λ entry bytes. entry ≡ entry_at shape.now bytes index) file source.new result) }
    ensures place { OnOk result (source.new.place ≡ entry_start format shape.now index + 17) }
    ensures mark { OnOk result
        (source.new.mark ≡ hashed_from format shape.now (index / group_size format shape.now)) }
    ensures reads { ReadsTable F.Folder folder.old folder.new name.now source.old source.new result }
{
    if let Some(group) = ended {
        check_digest(source, format, shape, group, folder, name)?;
    }
    read_bytes(source, format, shape, index, folder, name)
}

// Reads the bytes of an entry.
fn read_bytes<F: Folder>(
    source: &mut Source,
    format: Format,
    shape: &TableShape,
    index: u32,
    folder: &mut F,
    name: &str,
) -> Result<Entry, TableFault>
    requires served { IsTrue (F.serves folder.old name.now) }
    requires entry { IsEntryNumber shape.now index }
    requires stands { StandsAt format shape.now source.old (entry_start format shape.now index) }
    ensures given { Given (F.holds folder.old) name.now (λ file.
        IsAtFile source.old file → IsOfFormat format file →
        Checks (λ bytes. bytes_fault shape.now bytes index)
        (λ entry bytes. entry ≡ entry_at shape.now bytes index) file source.new result) }
    ensures steps { OnOk result (Steps source.old source.new 17) }
    ensures reads { ReadsTable F.Folder folder.old folder.new name.now source.old source.new result }
{
    let entry = source.entry(folder, name)?;
    if !is_advice(shape, index, entry.advice) {
        return Err(TableFault::Advice {
            layer: index / shape.states,
            state: index % shape.states,
            byte: entry.advice,
        });
    }
    Ok(entry)
}

/// Whether an entry may have such an advice.
pub fn is_advice(shape: &TableShape, index: u32, byte: u8) -> bool
    ensures { result ≡ (if nat_lt index shape.now.states
        then byte == 255 else nat_lt byte shape.now.advisories) }
{
    if index < shape.states {
        byte == 255
    } else {
        (byte as u32) < shape.advisories
    }
}

/// Reads the digest of the last group and the end.
pub fn read_end<F: Folder>(
    source: &mut Source,
    format: Format,
    shape: &TableShape,
    folder: &mut F,
    name: &str,
) -> Result<(), TableFault>
    requires served { IsTrue (F.serves folder.old name.now) }
    requires limited { IsShape shape.now }
    requires stands { StandsAt format shape.now source.old
        (digest_start format shape.now (last_group format shape.now)) }
    requires mark { source.old.mark ≡ hashed_from format shape.now (last_group format shape.now) }
    ensures given { Given (F.holds folder.old) name.now (λ file.
        IsAtFile source.old file → IsOfFormat format file →
        Finds (tail_fault shape.now) file result) }
    ensures all { OnOk result (bytes_taken source.new ≡ length_of format shape.now) }
    ensures reads { ReadsTable F.Folder folder.old folder.new name.now source.old source.new result }
{
    let last = format.last_group(shape);
    check_digest(source, format, shape, last, folder, name)?;
    source.ends(folder, name)
}

// Reads the digest of a group. It is called once for many entries.
#[inline(never)]
fn check_digest<F: Folder>(
    source: &mut Source,
    format: Format,
    shape: &TableShape,
    group: u32,
    folder: &mut F,
    name: &str,
) -> Result<(), TableFault>
    requires served { IsTrue (F.serves folder.old name.now) }
    requires group { group ≤ last_group format shape.now }
    requires stands { StandsAt format shape.now source.old (digest_start format shape.now group) }
    requires mark { source.old.mark ≡ hashed_from format shape.now group }
    ensures given { Given (F.holds folder.old) name.now (λ file.
        IsAtFile source.old file → IsOfFormat format file →
        Checks (λ bytes. digest_fault shape.now bytes group) (λ _ _. ⊤) file source.new result) }
    ensures place { OnOk result (source.new.place ≡ source.old.place + 32) }
    ensures mark { OnOk result (source.new.mark ≡ source.old.place) }
    ensures reads { ReadsTable F.Folder folder.old folder.new name.now source.old source.new result }
{
    let computed = source.digest();
    source.check(&digest_field(format, group, computed), folder, name)
}

// The digest of a group, as a field.
fn digest_field(format: Format, group: u32, computed: [u8; 32]) -> Field
    ensures { result ≡ digest_field format group computed }
{
    match format {
        Format::Whole => Field::Digest(computed),
        Format::Layered => Field::LayerDigest {
            layer: group,
            computed,
        },
    }
}
