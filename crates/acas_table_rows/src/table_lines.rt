//! The lines of a layer, printed state by state.
ghost use Rattle.std.specs.Prelude.{◌≡◌, ◌<◌, ◌≤◌, ◌++◌, [], IfOk, IsErr, OnOk, OnErr, length};
ghost use Rattle.acas_spec.specs.Model.{states};
ghost use Rattle.acas_outside.specs.Bytes.{AppendsPart};
ghost use Rattle.acas_outside.specs.Frame.{Emits};
ghost use Rattle.acas_outside.specs.Printing.{Prints};
ghost use Rattle.acas_table_rows.specs.Heads.{BeginsLine, HasHead};
ghost use Rattle.acas_table_rows.specs.LayerParts.{layer_data, IsWholeLayer};
ghost use Rattle.acas_table_rows.specs.ValuesText.{listed_line, listed_lines};

use crate::entry_lines::{write_entry, write_head};
use acas_base::Model;
use acas_grid::{state_present, state_vertex};
use acas_outside::{Failed, LINE_BYTES, Line, PrintBuffer, Sink};
use acas_units::Pair;
use std::alloc::{AllocError, Global};

/// What printing takes: what the lines of neighbouring states begin with, a line to build in, and the bytes that wait to be written. Its
/// memory is taken when it is made.
#[derive(Drop)]
pub struct Pen {
    pub(crate) head: Line,
    pub(crate) line: Line,
    pub(crate) buffer: PrintBuffer,
}

impl Pen {
    /// A pen that has printed nothing.
    pub fn make(alloc: Global) -> Result<Pen, AllocError>
        ensures { IfOk result (λ pen. pen.buffer ≡ []) }
    {
        let buffer = PrintBuffer::make(alloc)?;
        Ok(Pen {
            head: Line::new(),
            line: Line::new(),
            buffer,
        })
    }
}

/// A layer of a table: how many seconds are to go, and the values and the advice of each state by its number.
#[derive(Clone, Copy)]
pub(crate) struct Layer<'t> {
    pub(crate) n: u32,
    pub(crate) pairs: &'t [Pair],
    pub(crate) advice: &'t [u8],
}

/// Prints the lines of a layer.
pub(crate) fn print_layer<O: Sink>(
    model: &Model,
    layer: &Layer<'_>,
    pen: &mut Pen,
    out: &mut O,
) -> Result<(), Failed>
    requires { IsWholeLayer model.now.grid layer.now }
    ensures ok { OnOk result (Prints (O.written out.old) (O.written out.new)
        pen.old.buffer pen.new.buffer (listed_lines model.now (layer_data layer.now))) }
    ensures err { OnErr result (AppendsPart (O.written out.old) (O.written out.new)
        (pen.old.buffer ++ listed_lines model.now (layer_data layer.now))) }
    ensures frame { Emits O.Sink out.old out.new (IsErr result) }
{
    for state in 0..model.grid().states() {
        print_state(model, layer, state, pen, out)?;
    }
    Ok(())
}

// Prints the line of a state.
fn print_state<O: Sink>(
    model: &Model,
    layer: &Layer<'_>,
    state: u32,
    pen: &mut Pen,
    out: &mut O,
) -> Result<(), Failed>
    requires layer { IsWholeLayer model.now.grid layer.now }
    requires state { state < states model.now.grid }
    requires head { HasHead model.now layer.now.n state pen.old.head }
    ensures ok { OnOk result (Prints (O.written out.old) (O.written out.new)
        pen.old.buffer pen.new.buffer (listed_line model.now (layer_data layer.now) state)) }
    ensures err { OnErr result (AppendsPart (O.written out.old) (O.written out.new)
        (pen.old.buffer ++ listed_line model.now (layer_data layer.now) state)) }
    ensures frame { Emits O.Sink out.old out.new (IsErr result) }
    ensures head { BeginsLine model.now layer.now.n state pen.new.head }
{
    write_state(&mut pen.head, &mut pen.line, model, layer, state);
    pen.buffer.print(out, pen.line.bytes())?;
    Ok(())
}

// Makes the line of a state.
fn write_state(head: &mut Line, line: &mut Line, model: &Model, layer: &Layer<'_>, state: u32)
    requires layer { IsWholeLayer model.now.grid layer.now }
    requires state { state < states model.now.grid }
    requires head { HasHead model.now layer.now.n state head.old }
    ensures value { line.new ≡ listed_line model.now (layer_data layer.now) state }
    ensures short { length line.new ≤ LINE_BYTES }
    ensures head { BeginsLine model.now layer.now.n state head.new }
{
    renew_head(head, model, layer.n, state);
    write_entry(
        line,
        head,
        model,
        layer.n,
        state_vertex(model.grid(), state).k,
        layer.pairs[state as usize],
        layer.advice[state as usize],
    );
}

// Makes what the line of a state begins with where the state is at the first place of the axis of intruder rate: the lines at the other
// places begin so too.
fn renew_head(head: &mut Line, model: &Model, n: u32, state: u32)
    requires state { state < states model.now.grid }
    requires head { HasHead model.now n state head.old }
    ensures { BeginsLine model.now n state head.new }
{
    let grid = model.grid();
    let vertex = state_vertex(grid, state);
    if vertex.k == 0 {
        write_head(head, model, n, state_present(grid, state), vertex);
    }
}
