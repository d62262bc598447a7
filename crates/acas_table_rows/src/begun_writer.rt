//! A writer of a table that has begun, and knows that it has written all layers that it was given.
ghost use Rattle.acas_table_rows.specs.BegunWriter.{HasBegun};

use acas_table_writer::TableWriter;

/// A writer of a table that has begun.
#[derive(Drop)]
pub(crate) struct BegunWriter {
    pub(crate) writer: TableWriter,
    ghost begun: { HasBegun writer },
}
