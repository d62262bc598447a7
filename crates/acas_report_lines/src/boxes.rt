//! The report on boxes, with rulings of any kind from a source of them.
ghost use Rattle.std.specs.Prelude.{◌≡◌, ◌+◌, ◌<◌, ◌^◌, [], ◌∷◌, OnOk, OnErr, IsErr, IsErrOf, length};
ghost use Rattle.acas_spec.specs.Model.{ModelData};
ghost use Rattle.acas_outside.specs.Frame.{Emits};
ghost use Rattle.acas_rulings.specs.Boxes.{AuditedBox, audited, box_at};
ghost use Rattle.acas_report_lines.specs.Plan.{Broke, Room, Wrote, box_plan, progress, total};
ghost use Rattle.acas_report_lines.specs.Regions.{IsEachBox, IsSaidAt, boxes_text, places};
ghost use Rattle.acas_report_lines.specs.Report.{IsBegun, IsReportOn, WroteReport};

use crate::counts::Counts;
use crate::lines::{write_box_counts, write_box_line};
use crate::pen::Pen;
use crate::said::Said;
use acas_base::Model;
use acas_outside::{Failed, PrintFault, Sink};
use acas_rulings::{AuditBox, Boxes};
use std::alloc::Global;

/// A source of rulings of some kind on boxes.
pub trait BoxSource {
    /// What is said of a box.
    type Ruling: Said + Copy;

    /// It rules on such a box beside a model.
    ghost takes: { Self → ModelData → AuditedBox → Type 0 };

    /// This is a ruling of the box beside the model.
    ghost rules: { Self → ModelData → AuditedBox → Self.Ruling → Type 0 };

    /// The ruling of a box.
    fn ruling(&self, model: &Model, area: &AuditBox) -> Self::Ruling
        requires { takes self.now model.now (audited area.now) }
        ensures { rules self.now model.now (audited area.now) result };
}

/// Boxes beside a model, and what rules on them.
#[derive(Drop)]
struct Audited<'a, R> {
    model: &'a Model,
    boxes: &'a Boxes,
    rulings: &'a R,
}

/// Writes the report on boxes, with rulings from a source of them, and answers its counts, with no clear cells. It takes all its memory
/// before the first byte goes out.
pub fn write_boxes_by<R: BoxSource, S: Sink>(
    alloc: Global,
    model: &Model,
    boxes: &Boxes,
    rulings: &R,
    sink: &mut S,
) -> Result<Counts, PrintFault>
    requires { IsEachBox (R.takes rulings.now model.now) boxes.now }
    ensures report { WroteReport (IsReportOn (IsSaidAt (R.rules rulings.now model.now) boxes.now)
        R.Ruling.certified (places boxes.now) 0 (boxes_text R.Ruling.certified R.Ruling.text))
        result (S.written sink.old) (S.written sink.new) }
    ensures part { IsErrOf result PrintFault.Sink →
        IsBegun (IsSaidAt (R.rules rulings.now model.now) boxes.now) (places boxes.now)
        (boxes_text R.Ruling.certified R.Ruling.text) (S.written sink.old) (S.written sink.new) }
    ensures memory { IsErrOf result PrintFault.Memory → S.written sink.new ≡ S.written sink.old }
    ensures frame { Emits S.Sink sink.old sink.new (IsErrOf result PrintFault.Sink) }
{
    let Ok(pen) = Pen::make(alloc) else {
        return Err(PrintFault::Memory);
    };
    let audited = Audited {
        model,
        boxes,
        rulings,
    };
    match write_whole(&audited, sink, pen) {
        Ok(counts) => Ok(counts),
        Err(_) => Err(PrintFault::Sink),
    }
}

// Writes the lines of all boxes, and then the counts, which it answers, with a pen that has written and counted nothing.
fn write_whole<R: BoxSource, S: Sink>(
    on: &Audited<'_, R>,
    sink: &mut S,
    mut pen: Pen,
) -> Result<Counts, Failed>
    requires boxes { IsEachBox (R.takes on.now.rulings.now on.now.model.now) on.now.boxes.now }
    requires empty { pen.out.buffer ≡ [] }
    requires certified { pen.counts.certified ≡ 0 }
    requires reported { pen.counts.reported ≡ 0 }
    requires clear { pen.counts.clear ≡ 0 }
    ensures ok { WroteReport (IsReportOn (IsSaidAt (R.rules on.now.rulings.now on.now.model.now) on.now.boxes.now)
        R.Ruling.certified (places on.now.boxes.now) 0 (boxes_text R.Ruling.certified R.Ruling.text))
        result (S.written sink.old) (S.written sink.new) }
    ensures err { OnErr result
        (IsBegun (IsSaidAt (R.rules on.now.rulings.now on.now.model.now) on.now.boxes.now)
        (places on.now.boxes.now)
        (boxes_text R.Ruling.certified R.Ruling.text) (S.written sink.old) (S.written sink.new)) }
    ensures frame { Emits S.Sink sink.old sink.new (IsErr result) }
{
    // There is room for the counts, since the number of boxes is one of 32 bits.
    let _ = on.boxes.len();
    write_boxes(on, sink, &mut pen)?;
    let counts = pen.counts;
    write_box_counts(&mut pen.out.line, &counts);
    pen.out.end(sink)?;
    Ok(counts)
}

// Writes the lines of all boxes.
fn write_boxes<R: BoxSource, S: Sink>(
    on: &Audited<'_, R>,
    sink: &mut S,
    pen: &mut Pen,
) -> Result<(), Failed>
    requires boxes { IsEachBox (R.takes on.now.rulings.now on.now.model.now) on.now.boxes.now }
    requires room { Room
        (box_plan (R.rules on.now.rulings.now on.now.model.now) R.Ruling.certified R.Ruling.text on.now.boxes.now)
        pen.old.counts (places on.now.boxes.now) }
    ensures ok { OnOk result (Wrote
        (box_plan (R.rules on.now.rulings.now on.now.model.now) R.Ruling.certified R.Ruling.text on.now.boxes.now)
        (progress (S.written sink.old) pen.old) (progress (S.written sink.new) pen.new) (places on.now.boxes.now)) }
    ensures err { OnErr result (Broke
        (box_plan (R.rules on.now.rulings.now on.now.model.now) R.Ruling.certified R.Ruling.text on.now.boxes.now)
        (S.written sink.old) pen.old.out.buffer (S.written sink.new) (places on.now.boxes.now)) }
    ensures frame { Emits S.Sink sink.old sink.new (IsErr result) }
{
    for place in 0..on.boxes.len() {
        write_box(on, place, sink, pen)?;
    }
    Ok(())
}

// Writes the line of a box, and counts it.
fn write_box<R: BoxSource, S: Sink>(
    on: &Audited<'_, R>,
    place: u32,
    sink: &mut S,
    pen: &mut Pen,
) -> Result<(), Failed>
    requires takes { R.takes on.now.rulings.now on.now.model.now (box_at on.now.boxes.now place) }
    requires place { place < length on.now.boxes.now }
    requires room { total pen.old.counts + 1 < 2 ^ 64 }
    ensures ok { OnOk result (Wrote
        (box_plan (R.rules on.now.rulings.now on.now.model.now) R.Ruling.certified R.Ruling.text on.now.boxes.now)
        (progress (S.written sink.old) pen.old) (progress (S.written sink.new) pen.new) (place ∷ [])) }
    ensures err { OnErr result (Broke
        (box_plan (R.rules on.now.rulings.now on.now.model.now) R.Ruling.certified R.Ruling.text on.now.boxes.now)
        (S.written sink.old) pen.old.out.buffer (S.written sink.new) (place ∷ [])) }
    ensures frame { Emits S.Sink sink.old sink.new (IsErr result) }
{
    let ruling = on.rulings.ruling(on.model, on.boxes.at(place));
    pen.counts.count(ruling.is_certified());
    write_box_line(&mut pen.out.line, place, &ruling);
    pen.out.buffer.print(sink, pen.out.line.bytes())?;
    Ok(())
}
