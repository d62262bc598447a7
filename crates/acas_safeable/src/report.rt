//! The report of `safeable`, line by line to a sink.
ghost use Rattle.std.specs.Prelude.{◌≡◌, List, ℕ, [], IfOk, IsErr, IsErrOf, OnOk, OnErr};
ghost use Rattle.acas_base.specs.Advices.{AreAdvicesOf};
ghost use Rattle.acas_cells.specs.Cells.{Cell};
ghost use Rattle.acas_outside.specs.Bytes.{Appends, AppendsPart};
ghost use Rattle.acas_outside.specs.Frame.{Emits};
ghost use Rattle.acas_safeable.specs.Outlooks.{AreOutlooks};
ghost use Rattle.acas_safeable.specs.SafeableText.{IsSafeableBegun, IsSafeableReport, counts_of, safeable_text};
ghost use Rattle.acas_safeable.specs.declared.outlook.Outlook.{Outlook};

use crate::cells::write_cells;
use crate::counts::SafeCounts;
use crate::lines::write_counts;
use acas_base::{Advices, Model};
use acas_outside::{Failed, Pen, PrintFault, Sink};
use std::alloc::Global;

/// Writes a line for each cell in which a table advises nothing and contact cannot come within the second, in order, with the advisory
/// that keeps it safe a second later, where one is shown; and then the counts, which it answers. It takes all its memory before the
/// first byte goes out.
pub fn write_safeable<S: Sink>(
    alloc: Global,
    model: &Model,
    advices: &Advices,
    sink: &mut S,
) -> Result<SafeCounts, PrintFault>
    requires { AreAdvicesOf model.now advices.now }
    ensures report { IfOk result (λ counts. (text : List ℕ)
        × IsSafeableReport model.now advices.now counts text
        × Appends (S.written sink.old) (S.written sink.new) text) }
    ensures part { IsErrOf result PrintFault.Sink →
        IsSafeableBegun model.now advices.now (S.written sink.old) (S.written sink.new) }
    ensures memory { IsErrOf result PrintFault.Memory → S.written sink.new ≡ S.written sink.old }
    ensures frame { Emits S.Sink sink.old sink.new (IsErrOf result PrintFault.Sink) }
{
    // Opens the model's limits: each of its cells has an outlook.
    let _ = model.grid();
    let Ok(pen) = Pen::make(alloc) else {
        return Err(PrintFault::Memory);
    };
    match write_whole(model, advices, sink, pen) {
        Ok(counts) => Ok(counts),
        Err(_) => Err(PrintFault::Sink),
    }
}

// Writes the lines of all cells, and then the counts, with a pen that has written nothing.
fn write_whole<S: Sink>(
    model: &Model,
    advices: &Advices,
    sink: &mut S,
    mut pen: Pen,
) -> Result<SafeCounts, Failed>
    requires advices { AreAdvicesOf model.now advices.now }
    requires empty { pen.buffer ≡ [] }
    ensures counted { IfOk result (λ counts. (found : Cell → Outlook) →
        AreOutlooks model.now advices.now found →
        counts ≡ counts_of model.now advices.now found) }
    ensures ok { OnOk result ((found : Cell → Outlook) → AreOutlooks model.now advices.now found →
        Appends (S.written sink.old) (S.written sink.new) (safeable_text model.now advices.now found)) }
    ensures err { OnErr result ((found : Cell → Outlook) → AreOutlooks model.now advices.now found →
        AppendsPart (S.written sink.old) (S.written sink.new) (safeable_text model.now advices.now found)) }
    ensures frame { Emits S.Sink sink.old sink.new (IsErr result) }
{
    let counts = write_cells(model, advices, sink, &mut pen)?;
    write_counts(&mut pen.line, &counts);
    pen.end(sink)?;
    Ok(counts)
}
