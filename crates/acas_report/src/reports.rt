//! The reports of an audit and of a box file, with the rulings of verdicts.
ghost use Rattle.std.specs.Prelude.{◌≡◌, ◌+◌, ◌≤◌, ◌^◌, ℕ, IfOk, IsErrOf};
ghost use Rattle.acas_base.specs.Advices.{AreAdvicesOf};
ghost use Rattle.acas_outside.specs.Frame.{Emits};
ghost use Rattle.acas_rulings.specs.Boxes.{AreBoxesOf};
ghost use Rattle.acas_audit_blocks.specs.Decisions.{AreAuditsDecisions};
ghost use Rattle.acas_report_lines.specs.Regions.{IsRegionsReport, IsRegionsReportBegun};
ghost use Rattle.acas_report_lines.specs.Report.{WroteReport};
ghost use Rattle.acas_report_lines.specs.CellReport.{IsReport, IsReportBegun};

use crate::sources::{ByBlocks, OneByOne};
use acas_audit_blocks::{BlockAudit, Decisions};
use acas_base::{Advices, Model};
use acas_outside::{PrintFault, Sink};
use acas_report_lines::{Audit, Counts, Which, write_boxes_by, write_report_by};
use acas_rulings::Boxes;
use std::alloc::Global;

/// Writes the report of an audit, and answers its counts. It takes all its memory before the first byte goes out.
pub fn write_report<S: Sink>(
    alloc: Global,
    model: &Model,
    advices: &Advices,
    sink: &mut S,
    which: Which,
) -> Result<Counts, PrintFault>
    requires { AreAdvicesOf model.now advices.now }
    ensures report { WroteReport (IsReport model.now advices.now which) result (S.written sink.old) (S.written sink.new) }
    ensures part { IsErrOf result PrintFault.Sink →
        IsReportBegun model.now advices.now which (S.written sink.old) (S.written sink.new) }
    ensures memory { IsErrOf result PrintFault.Memory → S.written sink.new ≡ S.written sink.old }
    ensures frame { Emits S.Sink sink.old sink.new (IsErrOf result PrintFault.Sink) }
{
    let audit = Audit {
        model,
        advices,
        which,
    };
    let mut count = Decisions::new();
    write_report_by(alloc, &audit, &mut OneByOne, sink, &mut count)
}

/// Writes the same report, in which whole blocks of cells are decided first, and answers its counts. It takes all its memory before
/// the first byte goes out: besides that of [`write_report`], four bytes for each cell of one n and present advisory. It counts the
/// decisions of blocks: with Ok their whole number, and none for want of memory.
pub fn write_blocks<S: Sink>(
    alloc: Global,
    model: &Model,
    advices: &Advices,
    sink: &mut S,
    which: Which,
    count: &mut Decisions,
) -> Result<Counts, PrintFault>
    requires advices { AreAdvicesOf model.now advices.now }
    requires room { count.old ≤ 2 ^ 63 }
    ensures report { WroteReport (IsReport model.now advices.now which) result (S.written sink.old) (S.written sink.new) }
    ensures part { IsErrOf result PrintFault.Sink →
        IsReportBegun model.now advices.now which (S.written sink.old) (S.written sink.new) }
    ensures memory { IsErrOf result PrintFault.Memory → S.written sink.new ≡ S.written sink.old }
    ensures frame { Emits S.Sink sink.old sink.new (IsErrOf result PrintFault.Sink) }
    ensures unmoved { IsErrOf result PrintFault.Memory → count.new ≡ count.old }
    ensures decisions { IfOk result (λ counts. (number : ℕ)
        × AreAuditsDecisions model.now advices.now number × (count.new ≡ count.old + number)) }
    ensures rising { count.old ≤ count.new }
{
    let Ok(blocks) = BlockAudit::make(alloc, model) else {
        return Err(PrintFault::Memory);
    };
    let audit = Audit {
        model,
        advices,
        which,
    };
    write_report_by(alloc, &audit, &mut ByBlocks(blocks), sink, count)
}

/// Writes the report of a box file, and answers its counts, with no clear cells. It takes all its memory before the first byte goes
/// out.
pub fn write_regions<S: Sink>(
    alloc: Global,
    model: &Model,
    boxes: &Boxes,
    sink: &mut S,
) -> Result<Counts, PrintFault>
    requires { AreBoxesOf model.now boxes.now }
    ensures report { WroteReport (IsRegionsReport model.now boxes.now) result (S.written sink.old) (S.written sink.new) }
    ensures part { IsErrOf result PrintFault.Sink →
        IsRegionsReportBegun model.now boxes.now (S.written sink.old) (S.written sink.new) }
    ensures memory { IsErrOf result PrintFault.Memory → S.written sink.new ≡ S.written sink.old }
    ensures frame { Emits S.Sink sink.old sink.new (IsErrOf result PrintFault.Sink) }
{
    write_boxes_by(alloc, model, boxes, &OneByOne, sink)
}
