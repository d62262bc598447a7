//! The writer of a table.
ghost use Rattle.std.specs.Prelude.{◌≤◌, ◌+◌};
ghost use Rattle.acas_table_text.specs.Shape.{IsShape};

use crate::encoding::header_bytes;
use crate::pieces::Pieces;
use acas_base::Model;
use acas_outside::{Failed, Folder, store_file};
use acas_table_text::{Format, TableShape};
use acas_units::Pair;
use std::alloc::{AllocError, Global};

/// How far a writer has come.
#[derive(Clone, Copy)]
pub enum Phase {
    /// It has appended nothing.
    New,
    /// It has appended the header and the layers that it was given.
    Started,
    /// It has appended the whole table.
    Finished,
    /// A call has failed. The writer may only be dropped.
    Failed,
}

/// A table, as it is written layer by layer. No call but the one that makes the writer takes memory.
#[derive(Drop)]
pub struct TableWriter {
    format: Format,
    shape: TableShape,
    head: Vec<u8>,
    pieces: Pieces,
    given: u32,
    phase: Phase,
    ghost limited: { IsShape shape },
    ghost count: { given ≤ shape.horizon + 1 },
}

impl TableWriter {
    ghost use Rattle.std.specs.Prelude.{◌≡◌, ◌⊎◌, ◌≤◌, ◌<◌, ◌+◌, [], List, IfOk, OnOk, OnErr, IsErr, IsSome, IsTrue, length, is_ok, if◌then◌else◌, Some};
    ghost use Rattle.std.specs.Option.{option_map};
    ghost use Rattle.acas_units.specs.declared.pair.Entry.{Entry as TableEntry};
    ghost use Rattle.acas_outside.specs.Files.{Given, Grows, GrowsPart, Stores, StoresPart};
    ghost use Rattle.acas_outside.specs.Frame.{OnlyWrites};
    ghost use Rattle.acas_table_text.specs.Shape.{shape_of};
    ghost use Rattle.acas_table_text.specs.Text.{layer_of};
    ghost use Rattle.acas_table_text.specs.Format.{format_of_version, length_of};
    ghost use Rattle.acas_table_writer.specs.Writer.{AppendsLayer, writer_state, new_writer, HasWritten, last_bytes};

    /// A writer of tables of version 2 for a model, whose text has this digest.
    pub fn new(alloc: Global, model: &Model, digest: &[u8; 32]) -> Result<TableWriter, AllocError>
        ensures state { IfOk result (λ w.
            writer_state w ≡ new_writer Format.Layered digest.now (shape_of model.now.grid)) }
        ensures written { IfOk result (λ w. HasWritten w []) }
    {
        TableWriter::of_shape(alloc, TableShape::of(model), digest, Format::Layered)
    }

    /// A writer of tables of version 1, with one digest at the end, or of version 2, with a digest behind each layer.
    pub fn of_version(
        alloc: Global,
        model: &Model,
        digest: &[u8; 32],
        version: u32,
    ) -> Result<TableWriter, AllocError>
        requires { (version ≡ 1) ⊎ (version ≡ 2) }
        ensures state { IfOk result (λ w.
            Some (writer_state w) ≡ option_map (λ f. new_writer f digest.now (shape_of model.now.grid))
            (format_of_version version)) }
        ensures written { IfOk result (λ w. HasWritten w []) }
    {
        let format = if version == 1 {
            Format::Whole
        } else {
            Format::Layered
        };
        TableWriter::of_shape(alloc, TableShape::of(model), digest, format)
    }

    /// A writer of tables of a shape in either format.
    pub(crate) fn of_shape(
        alloc: Global,
        shape: TableShape,
        digest: &[u8; 32],
        format: Format,
    ) -> Result<TableWriter, AllocError>
        requires limited { IsShape shape }
        ensures state { IfOk result (λ w. writer_state w ≡ new_writer format digest.now shape) }
        ensures written { IfOk result (λ w. HasWritten w []) }
    {
        let head = header_bytes(alloc, format, &shape, digest)?;
        let pieces = Pieces::behind(alloc, &head)?;
        Ok(TableWriter {
            format,
            shape,
            head,
            pieces,
            given: 0,
            phase: Phase::New,
        })
    }

    /// Creates the file and appends the header.
    pub fn start<F: Folder>(&mut self, folder: &mut F, name: &str) -> Result<(), Failed>
        requires served { IsTrue (F.serves folder.old name.now) }
        requires new { (writer_state self.old).phase ≡ Phase.New }
        ensures ok { OnOk result
            (Stores (F.holds folder.old) (F.holds folder.new) name.now (writer_state self.old).head) }
        ensures err { OnErr result ((F.holds folder.new ≡ F.holds folder.old)
            ⊎ StoresPart (F.holds folder.old) (F.holds folder.new) name.now (writer_state self.old).head) }
        ensures written { (layers : List (List TableEntry)) →
            HasWritten self.old layers → HasWritten self.new layers }
        ensures state { let phase = if is_ok result then Phase.Started else Phase.Failed in
            writer_state self.new ≡ record (writer_state self.old) { phase = phase } }
        ensures frame { OnlyWrites F.Folder folder.old folder.new (IsErr result) }
    {
        self.phase = Phase::Failed;
        store_file(folder, name, &self.head)?;
        self.phase = Phase::Started;
        Ok(())
    }

    /// Appends the next layer, the values and the advices of its states by number, and in version 2 its digest.
    pub fn layer<F: Folder>(
        &mut self,
        folder: &mut F,
        name: &str,
        pairs: &[Pair],
        advice: &[u8],
    ) -> Result<(), Failed>
        requires served { IsTrue (F.serves folder.old name.now) }
        requires held { Given (F.holds folder.old) name.now (λ file. IsSome file) }
        requires started { (writer_state self.old).phase ≡ Phase.Started }
        requires more { (writer_state self.old).given < (writer_state self.old).shape.horizon + 1 }
        requires pairs { length pairs.now ≡ (writer_state self.old).shape.states }
        requires advice { length advice.now ≡ (writer_state self.old).shape.states }
        ensures appends { AppendsLayer F.Folder folder.old folder.new name.now self.old self.new
            (layer_of pairs.now advice.now) result }
        ensures state { let old = writer_state self.old in writer_state self.new ≡ (if is_ok result
            then record old { given = old.given + 1 }
            else record old { phase = Phase.Failed }) }
    {
        self.phase = Phase::Failed;
        self.pieces.layer(self.format, pairs, advice, folder, name)?;
        self.phase = Phase::Started;
        self.given += 1;
        Ok(())
    }

    /// Appends what follows the layers, in version 1 a digest and in version 2 nothing, and answers the table's length.
    pub fn finish<F: Folder>(&mut self, folder: &mut F, name: &str) -> Result<u64, Failed>
        requires served { IsTrue (F.serves folder.old name.now) }
        requires held { Given (F.holds folder.old) name.now (λ file. IsSome file) }
        requires started { (writer_state self.old).phase ≡ Phase.Started }
        requires all { (writer_state self.old).given ≡ (writer_state self.old).shape.horizon + 1 }
        ensures ok { (layers : List (List TableEntry)) → HasWritten self.old layers → OnOk result
            (Grows (F.holds folder.old) (F.holds folder.new) name.now
            (last_bytes (writer_state self.old) layers)) }
        ensures err { (layers : List (List TableEntry)) → HasWritten self.old layers → OnErr result
            (GrowsPart (F.holds folder.old) (F.holds folder.new) name.now
            (last_bytes (writer_state self.old) layers)) }
        ensures length { let old = writer_state self.old in
            IfOk result (λ n. n ≡ length_of old.format old.shape) }
        ensures state { let phase = if is_ok result then Phase.Finished else Phase.Failed in
            writer_state self.new ≡ record (writer_state self.old) { phase = phase } }
        ensures frame { OnlyWrites F.Folder folder.old folder.new (IsErr result) }
    {
        self.phase = Phase::Failed;
        self.pieces.ending(self.format, folder, name)?;
        self.phase = Phase::Finished;
        Ok(self.format.length(&self.shape))
    }
}
