//! The cells of a table in order, by their numbers.
ghost use Rattle.std.specs.Prelude.{◌≡◌, ◌+◌, ◌<◌, ◌≤◌, ◌^◌, List, [], ◌∷◌, ◌++◌};
ghost use Rattle.std.specs.Prelude.{IfOk, IsErr, OnErr, OnOk};
ghost use Rattle.std.specs.List.{flat_map};
ghost use Rattle.acas_base.specs.Advices.{AreAdvicesOf};
ghost use Rattle.acas_cells.specs.Cells.{Cell, IsCellOf, cells_of};
ghost use Rattle.acas_cells.specs.Corners.{is_clear_cell};
ghost use Rattle.acas_outside.specs.Bytes.{AppendsPart};
ghost use Rattle.acas_outside.specs.Frame.{Emits};
ghost use Rattle.acas_outside.specs.Printing.{Prints};
ghost use Rattle.acas_safeable.specs.Outlooks.{AreOutlooks};
ghost use Rattle.acas_safeable.specs.SafeableText.{cell_text, counts_of};
ghost use Rattle.acas_safeable.specs.View.{cell_of};
ghost use Rattle.acas_safeable.specs.Walk.{cell_count, counts_in, numbered_cell, total};
ghost use Rattle.acas_safeable.specs.declared.outlook.Outlook.{Outlook};

use crate::counts::SafeCounts;
use crate::finding::standing;
use crate::lines::write_cell_line;
use crate::outlook::ClearCell;
use acas_base::{Advices, Model};
use acas_cells::advices_at;
use acas_outside::{Failed, Pen, Sink};

/// Writes the lines of all cells, and answers how many there are of each kind.
pub(crate) fn write_cells<S: Sink>(
    model: &Model,
    advices: &Advices,
    sink: &mut S,
    pen: &mut Pen,
) -> Result<SafeCounts, Failed>
    requires { AreAdvicesOf model.now advices.now }
    ensures counted { IfOk result (λ counts. (found : Cell → Outlook) →
        AreOutlooks model.now advices.now found →
        counts ≡ counts_of model.now advices.now found) }
    ensures ok { OnOk result ((found : Cell → Outlook) → AreOutlooks model.now advices.now found →
        Prints (S.written sink.old) (S.written sink.new) pen.old.buffer pen.new.buffer
        (flat_map (cell_text model.now advices.now found) (cells_of model.now))) }
    ensures err { OnErr result ((found : Cell → Outlook) → AreOutlooks model.now advices.now found →
        AppendsPart (S.written sink.old) (S.written sink.new)
        (pen.old.buffer ++ flat_map (cell_text model.now advices.now found) (cells_of model.now))) }
    ensures frame { Emits S.Sink sink.old sink.new (IsErr result) }
{
    let mut counts = SafeCounts::none();
    for number in 0..cell_count(model) {
        let cell = numbered_cell(model, number);
        counts = write_cell(model, advices, &cell, &counts, sink, pen)?;
    }
    Ok(counts)
}

// How many cells there are.
fn cell_count(model: &Model) -> u32
    ensures { result ≡ cell_count model.now }
{
    let grid = model.grid();
    grid.horizon * grid.advisories * (grid.h.len() - 1) * (grid.v0.len() - 1) * (grid.v1.len() - 1)
}

// The cell of a number: the place on the axis of intruder rate runs fastest, and the seconds slowest.
fn numbered_cell(model: &Model, number: u32) -> ClearCell
    requires { number < cell_count model.now }
    ensures value { cell_of result ≡ numbered_cell model.now number }
    ensures inside { IsCellOf model.now (cell_of result) }
{
    let grid = model.grid();
    let (altitudes, own_rates, intruder_rates) = (
        grid.h.len() - 1,
        grid.v0.len() - 1,
        grid.v1.len() - 1,
    );
    let row = number / intruder_rates;
    let plane = row / own_rates;
    let block = plane / altitudes;
    ClearCell {
        n: block / grid.advisories,
        present: (block % grid.advisories) as u8,
        i: plane % altitudes,
        j: row % own_rates,
        k: number % intruder_rates,
    }
}

// Whether nothing is advised at the corners of a cell.
fn is_clear(model: &Model, advices: &Advices, cell: &ClearCell) -> bool
    requires advices { AreAdvicesOf model.now advices.now }
    requires cell { IsCellOf model.now (cell_of cell.now) }
    ensures { result ≡ is_clear_cell model.now advices.now (cell_of cell.now) }
{
    let ClearCell {
        n,
        present,
        i,
        j,
        k,
    } = *cell;
    advices_at(model, advices, n, present, i, j, k).has_no_advisory()
}

// Writes the line of a cell that is looked at, and answers the counts with that cell.
fn write_cell<S: Sink>(
    model: &Model,
    advices: &Advices,
    cell: &ClearCell,
    counts: &SafeCounts,
    sink: &mut S,
    pen: &mut Pen,
) -> Result<SafeCounts, Failed>
    requires advices { AreAdvicesOf model.now advices.now }
    requires cell { IsCellOf model.now (cell_of cell.now) }
    requires room { total counts.now + 1 < 2 ^ 64 }
    ensures few { IfOk result (λ new. total new ≤ total counts.now + 1) }
    ensures counted { IfOk result (λ new. (found : Cell → Outlook) (before : List Cell) →
        AreOutlooks model.now advices.now found →
        counts.now ≡ counts_in model.now advices.now found before →
        new ≡ counts_in model.now advices.now found (before ++ cell_of cell.now ∷ [])) }
    ensures ok { OnOk result ((found : Cell → Outlook) → AreOutlooks model.now advices.now found →
        Prints (S.written sink.old) (S.written sink.new) pen.old.buffer pen.new.buffer
        (cell_text model.now advices.now found (cell_of cell.now))) }
    ensures err { OnErr result ((found : Cell → Outlook) → AreOutlooks model.now advices.now found →
        AppendsPart (S.written sink.old) (S.written sink.new)
        (pen.old.buffer ++ cell_text model.now advices.now found (cell_of cell.now))) }
    ensures frame { Emits S.Sink sink.old sink.new (IsErr result) }
{
    // Opens the model's limits: what is found is one of its advisories.
    let _ = model.grid();
    if !is_clear(model, advices, cell) {
        return Ok(*counts);
    }
    if cell.n == 0 {
        return Ok(counts.with_near());
    }
    let outlook = standing(model, cell);
    write_cell_line(&mut pen.line, model, cell, &outlook);
    pen.buffer.print(sink, pen.line.bytes())?;
    Ok(counts.with(&outlook))
}
