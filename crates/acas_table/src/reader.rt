//! The reader of a table.
ghost use Rattle.std.specs.Prelude.{◌≡◌, ◌≤◌, ◌+◌, false};
ghost use Rattle.std.specs.Option.{ForNone};
ghost use Rattle.acas_table_text.specs.Shape.{IsShape, entry_count};
ghost use Rattle.acas_table_text.specs.Format.{group_size, length_of};
ghost use Rattle.acas_table.specs.Standing.{StandsIn};

use crate::body::{is_advice, read_end, read_entry};
use crate::header::{check_model, read_format};
use crate::place::GroupPlace;
use crate::source::{ENTRY, Source};
use acas_base::Model;
use acas_outside::Folder;
use acas_table_text::{Format, TableFault, TableShape};
use acas_units::Entry;
use std::alloc::Global;

/// A table of either version, as it is read entry by entry. A digest is read with the first entry behind it, before
/// that entry, and the last digest at the end.
///
/// It counts the bytes that it takes of its file, from 0 on. Over every folder each call raises the folder's count by
/// just as much as its own. Its own is at most one more than the length of a table of the version that was read, and
/// just that length where `finish` answers `Ok`, and it is never more than the file has: no byte is read twice.
#[derive(Drop)]
pub struct TableReader {
    shape: TableShape,
    format: Format,
    group: u32,
    source: Source,
    given: u32,
    place: GroupPlace,
    fault: Option<TableFault>,
    done: bool,
    ghost limited: { IsShape shape },
    ghost sized: { group ≡ group_size format shape },
    ghost count: { given ≤ entry_count shape },
    ghost limit: { source.limit ≡ length_of format shape + 1 },
    ghost expected: { source.expected ≡ length_of format shape },
    ghost stands: { ForNone fault (done ≡ false →
        StandsIn format shape source given place.groups place.left) },
}

impl TableReader {
    ghost use Rattle.std.specs.Prelude.{◌≡◌, ◌≤◌, ◌<◌, ◌+◌, List, ℕ, false, is_ok, IsTrue, IsErrOf, Ok, Some, IfOk, IfSome, OnOk, OnErr};
    ghost use Rattle.acas_outside.specs.Files.{Given};
    ghost use Rattle.acas_outside.specs.Frame.{OnlyReads};
    ghost use Rattle.acas_table_text.specs.Shape.{entry_count, shape_of};
    ghost use Rattle.acas_table_text.specs.Format.{length_of};
    ghost use Rattle.acas_units.specs.declared.pair.Entry.{Entry as EntryData};
    ghost use Rattle.acas_table.specs.AtHand.{IsNext};
    ghost use Rattle.acas_table.specs.Source.{StaysWithin, Takes};
    ghost use Rattle.acas_table.specs.Reader.{reader_state, IsNew, HasRead, Leaves, TakesAtMost, Told, Starts, GivesEntry, Finishes};

    /// Reads the header of a table for a model, whose text has this digest.
    pub fn start<F: Folder>(
        alloc: Global,
        model: &Model,
        digest: &[u8; 32],
        folder: &mut F,
        name: &str,
    ) -> Result<TableReader, TableFault>
        requires served { IsTrue (F.serves folder.old name.now) }
        ensures given { Given (F.holds folder.old) name.now (λ file.
            Starts digest.now (shape_of model.now.grid) file result) }
        ensures state { IfOk result (λ r. IsNew (shape_of model.now.grid) (reader_state r)) }
        ensures taken { IfOk result (λ r. Takes F.Folder folder.old folder.new 0 (reader_state r).taken) }
        ensures most { IfOk result (λ r.
            (reader_state r).taken ≤ length_of (reader_state r).format (shape_of model.now.grid) + 1) }
        ensures within { IfOk result (λ r.
            StaysWithin (F.holds folder.old) name.now 0 (reader_state r).taken) }
        ensures at_most { TakesAtMost F.Folder folder.old folder.new name.now (shape_of model.now.grid) }
        ensures frame { OnlyReads F.Folder folder.old folder.new
            (IsErrOf result TableFault.Failed) (IsErrOf result TableFault.Absent) }
    {
        TableReader::of_shape(alloc, TableShape::of(model), digest, folder, name)
    }

    /// Reads the header of a table of a shape.
    pub(crate) fn of_shape<F: Folder>(
        alloc: Global,
        shape: TableShape,
        digest: &[u8; 32],
        folder: &mut F,
        name: &str,
    ) -> Result<TableReader, TableFault>
        requires limited { IsShape shape }
        requires served { IsTrue (F.serves folder.old name.now) }
        ensures given { Given (F.holds folder.old) name.now (λ file. Starts digest.now shape file result) }
        ensures state { IfOk result (λ r. IsNew shape (reader_state r)) }
        ensures taken { IfOk result (λ r. Takes F.Folder folder.old folder.new 0 (reader_state r).taken) }
        ensures most { IfOk result (λ r.
            (reader_state r).taken ≤ length_of (reader_state r).format shape + 1) }
        ensures within { IfOk result (λ r.
            StaysWithin (F.holds folder.old) name.now 0 (reader_state r).taken) }
        ensures at_most { TakesAtMost F.Folder folder.old folder.new name.now shape }
        ensures frame { OnlyReads F.Folder folder.old folder.new
            (IsErrOf result TableFault.Failed) (IsErrOf result TableFault.Absent) }
    {
        // The version says how long the file is to be; before it is read, no byte behind it is taken.
        let Ok(mut source) = Source::new(alloc, Format::Layered.length(&shape), 8) else {
            return Err(TableFault::Memory);
        };
        let format = read_format(&mut source, folder, name)?;
        source.expect(format.length(&shape));
        check_model(&mut source, format, &shape, digest, folder, name)?;
        let group = format.group_size(&shape);
        Ok(TableReader {
            shape,
            format,
            group,
            source,
            given: 0,
            place: GroupPlace {
                groups: 0,
                left: group,
            },
            fault: None,
            done: false,
        })
    }

    /// Reads the next entry, and before it the digest that stands between it and the last one, where one does.
    pub fn entry<F: Folder>(&mut self, folder: &mut F, name: &str) -> Result<Entry, TableFault>
        requires served { IsTrue (F.serves folder.old name.now) }
        requires more { (reader_state self.old).given < entry_count (reader_state self.old).shape }
        requires not_done { (reader_state self.old).done ≡ false }
        ensures given { (digest : List ℕ) → Told (F.holds folder.old) name.now (λ bytes.
            HasRead digest self.old bytes → GivesEntry digest (reader_state self.old) bytes result) }
        ensures stands { (digest : List ℕ) → Told (F.holds folder.old) name.now (λ bytes.
            HasRead digest self.old bytes → OnOk result (HasRead digest self.new bytes)) }
        ensures count { IfOk result (λ _. (reader_state self.new).given ≡ (reader_state self.old).given + 1) }
        ensures same_count { OnErr result ((reader_state self.new).given ≡ (reader_state self.old).given) }
        ensures done { (reader_state self.new).done ≡ false }
        ensures leaves { Leaves F.Folder folder.old folder.new name.now
            (reader_state self.old) (reader_state self.new) result }
    {
        if let Some(fault) = self.fault {
            return Err(fault);
        }
        let ended = self.place.ended();
        match read_entry(
            &mut self.source,
            self.format,
            &self.shape,
            self.given,
            ended,
            folder,
            name,
        ) {
            Ok(entry) => {
                self.given += 1;
                self.place = self.place.next(self.group);
                Ok(entry)
            }
            Err(fault) => {
                self.fault = Some(fault);
                Err(fault)
            }
        }
    }

    /// The next entry, where nothing is to be done but to take it: its bytes are at hand, no digest is to be read before it, its advice
    /// is one that it may have, and no fault was found. It is not taken yet.
    pub fn peek(&self) -> Option<Entry>
        ensures at_hand { IfSome result (IsNext self.now) }
        ensures all { (entry : EntryData) → IsNext self.now entry → result ≡ Some entry }
    {
        if self.fault.is_some() || self.place.left == 0 {
            return None;
        }
        let entry = self.source.peek()?;
        if is_advice(&self.shape, self.given, entry.advice) {
            Some(entry)
        } else {
            None
        }
    }

    /// Takes the next entry, which was seen so.
    pub fn pass(&mut self)
        requires more { (reader_state self.old).given < entry_count (reader_state self.old).shape }
        requires not_done { (reader_state self.old).done ≡ false }
        requires next { (entry : EntryData) × IsNext self.old entry }
        ensures given { (entry : EntryData) → IsNext self.old entry → (digest bytes : List ℕ) →
            HasRead digest self.old bytes → GivesEntry digest (reader_state self.old) bytes (Ok entry) }
        ensures stands { (digest bytes : List ℕ) →
            HasRead digest self.old bytes → HasRead digest self.new bytes }
        ensures state { let old = reader_state self.old in
            reader_state self.new ≡ record old { given = old.given + 1 } }
    {
        self.source.pass(ENTRY);
        self.given += 1;
        self.place = self.place.next(self.group);
    }

    /// Reads the last digest and the end.
    pub fn finish<F: Folder>(&mut self, folder: &mut F, name: &str) -> Result<(), TableFault>
        requires served { IsTrue (F.serves folder.old name.now) }
        requires all { (reader_state self.old).given ≡ entry_count (reader_state self.old).shape }
        requires not_done { (reader_state self.old).done ≡ false }
        ensures given { (digest : List ℕ) → Told (F.holds folder.old) name.now (λ bytes.
            HasRead digest self.old bytes → Finishes digest (reader_state self.old).shape bytes result) }
        ensures count { (reader_state self.new).given ≡ (reader_state self.old).given }
        ensures done { (reader_state self.new).done ≡ is_ok result }
        ensures all_taken { let now = reader_state self.new in
            OnOk result (now.taken ≡ length_of now.format now.shape) }
        ensures leaves { Leaves F.Folder folder.old folder.new name.now
            (reader_state self.old) (reader_state self.new) result }
    {
        if let Some(fault) = self.fault {
            return Err(fault);
        }
        match read_end(&mut self.source, self.format, &self.shape, folder, name) {
            Ok(()) => {
                self.done = true;
                Ok(())
            }
            Err(fault) => {
                self.fault = Some(fault);
                Err(fault)
            }
        }
    }
}
