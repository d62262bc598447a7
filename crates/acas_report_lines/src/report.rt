//! The report of an audit, with rulings from a source of them.
ghost use Rattle.std.specs.Prelude.{◌≡◌, ◌≤◌, ◌^◌, [], OnOk, OnErr, IfOk, IsErr, IsErrOf};
ghost use Rattle.acas_base.specs.Advices.{AreAdvicesOf};
ghost use Rattle.acas_outside.specs.Frame.{Emits};
ghost use Rattle.acas_report_lines.specs.Report.{WroteReport};
ghost use Rattle.acas_report_lines.specs.Blocks.{CountsPrepared};
ghost use Rattle.acas_report_lines.specs.CellReport.{IsReport, IsReportBegun};

use crate::audit::Audit;
use crate::cells::write_cells;
use crate::rulings::Rulings;
use crate::{Counts, Pen, write_counts};
use acas_outside::{Failed, PrintFault, Sink};
use acas_units::Counter;
use std::alloc::Global;

/// Writes the report of an audit, with rulings from a source of them, and answers its counts. It takes all its memory before the
/// first byte goes out.
pub fn write_report_by<R: Rulings, S: Sink>(
    alloc: Global,
    audit: &Audit<'_>,
    rulings: &mut R,
    sink: &mut S,
    count: &mut Counter<R::Decision>,
) -> Result<Counts, PrintFault>
    requires advices { AreAdvicesOf audit.now.model.now audit.now.advices.now }
    requires fits { R.fits rulings.old audit.now.model.now }
    requires room { count.old ≤ 2 ^ 63 }
    ensures report { WroteReport (IsReport audit.now.model.now audit.now.advices.now audit.now.which)
        result (S.written sink.old) (S.written sink.new) }
    ensures part { IsErrOf result PrintFault.Sink →
        IsReportBegun audit.now.model.now audit.now.advices.now audit.now.which (S.written sink.old) (S.written sink.new) }
    ensures memory { IsErrOf result PrintFault.Memory → S.written sink.new ≡ S.written sink.old }
    ensures frame { Emits S.Sink sink.old sink.new (IsErrOf result PrintFault.Sink) }
    ensures unmoved { IsErrOf result PrintFault.Memory → count.new ≡ count.old }
    ensures decisions { IfOk result (λ counts.
        CountsPrepared R.takes audit.now.model.now audit.now.advices.now count.old count.new) }
    ensures rising { count.old ≤ count.new }
{
    let Ok(pen) = Pen::make(alloc) else {
        return Err(PrintFault::Memory);
    };
    match write_whole(audit, rulings, sink, pen, count) {
        Ok(counts) => Ok(counts),
        Err(_) => Err(PrintFault::Sink),
    }
}

// Writes the lines of all cells, and then the counts, which it answers, with a pen that has written and counted nothing.
fn write_whole<R: Rulings, S: Sink>(
    audit: &Audit<'_>,
    rulings: &mut R,
    sink: &mut S,
    mut pen: Pen,
    count: &mut Counter<R::Decision>,
) -> Result<Counts, Failed>
    requires advices { AreAdvicesOf audit.now.model.now audit.now.advices.now }
    requires fits { R.fits rulings.old audit.now.model.now }
    requires decisions { count.old ≤ 2 ^ 63 }
    requires empty { pen.out.buffer ≡ [] }
    requires certified { pen.counts.certified ≡ 0 }
    requires reported { pen.counts.reported ≡ 0 }
    requires clear { pen.counts.clear ≡ 0 }
    ensures ok { WroteReport (IsReport audit.now.model.now audit.now.advices.now audit.now.which)
        result (S.written sink.old) (S.written sink.new) }
    ensures err { OnErr result
        (IsReportBegun audit.now.model.now audit.now.advices.now audit.now.which (S.written sink.old)
        (S.written sink.new)) }
    ensures frame { Emits S.Sink sink.old sink.new (IsErr result) }
    ensures counted { OnOk result
        (CountsPrepared R.takes audit.now.model.now audit.now.advices.now count.old count.new) }
    ensures rising { count.old ≤ count.new }
{
    // Opens the model's limits: there is room for the counts.
    let _ = audit.model.grid();
    write_cells(audit, rulings, sink, &mut pen, count)?;
    let counts = pen.counts;
    write_counts(&mut pen.out.line, &counts);
    pen.out.end(sink)?;
    Ok(counts)
}
