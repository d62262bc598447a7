//! A writer of a table that takes the layers of a sweep.
use crate::begun_writer::BegunWriter;
use acas_outside::Folder;
use acas_sweep::{LayerFailed, LayerSink};
use acas_units::Pair;

/// A writer of a table, with the folder and the name of the file to which it appends each layer.
#[derive(Drop)]
pub(crate) struct TableRows<'a, F: Folder> {
    pub(crate) begun: &'a mut BegunWriter,
    pub(crate) folder: &'a mut F,
    pub(crate) name: &'a str,
}

impl<F: Folder> LayerSink for TableRows<'_, F> {
    ghost use Rattle.acas_table_writer.specs.Writer.{writer_state};
    ghost use Rattle.acas_table_rows.specs.TableRows.{AddsRow, CutsRow, rows_left};

    ghost left = { rows_left F.Folder };

    ghost width = { λ rows. (writer_state rows.begun.now.writer).shape.states };

    ghost faults = { λ rows. F.faults rows.folder.now };

    ghost adds = { AddsRow F.Folder };

    ghost cuts = { CutsRow F.Folder };

    fn layer(&mut self, _n: u32, pairs: &[Pair], advice: &[u8]) -> Result<(), LayerFailed> {
        let begun = &mut *self.begun;
        match begun.writer.layer(self.folder, self.name, pairs, advice) {
            Ok(()) => Ok(()),
            Err(_) => Err(LayerFailed),
        }
    }
}
