//! The report of a box file against an intruder that may change its rate.
ghost use Rattle.std.specs.Prelude.{◌≡◌, ◌<◌, ℕ, IsErrOf, length};
ghost use Rattle.acas_outside.specs.Frame.{Emits};
ghost use Rattle.acas_rulings.specs.Boxes.{AreBoxesOf, IsBoxOf, box_at};
ghost use Rattle.acas_rulings.specs.Intruder.{RatesFit};
ghost use Rattle.acas_rulings.specs.MeetingView.{may_of};
ghost use Rattle.acas_rulings.specs.Verdicts.{IsMeetVerdict};
ghost use Rattle.acas_report_lines.specs.Meetings.{IsMeetingsBegun, IsMeetingsReport};
ghost use Rattle.acas_report_lines.specs.Report.{WroteReport};

use crate::verdict::meet_verdict;
use acas_base::Model;
use acas_outside::{PrintFault, Sink};
use acas_report_lines::{BoxSource, MeetCounts, write_boxes_by};
use acas_rulings::{AuditBox, Boxes, Manoeuvre, MeetVerdict};
use std::alloc::Global;

/// The source that gives each box a verdict of its own, against an intruder that may change its rate.
#[derive(Drop)]
struct BoxByBox<'a> {
    may: &'a Manoeuvre,
}

impl BoxSource for BoxByBox<'_> {
    type Ruling = MeetVerdict;

    ghost takes = { λ it m b. IsBoxOf m b × RatesFit (may_of it.may.now) b.states.intruder };

    ghost rules = { λ it m b verdict. IsMeetVerdict m (may_of it.may.now) b verdict };

    fn ruling(&self, model: &Model, area: &AuditBox) -> MeetVerdict {
        meet_verdict(model, area, self.may)
    }
}

/// Writes the report of a box file against an intruder that may change its rate, and answers its counts. The intruder may have each
/// intruder rate of each box. It takes all its memory before the first byte goes out.
pub fn write_meetings<S: Sink>(
    alloc: Global,
    model: &Model,
    boxes: &Boxes,
    may: &Manoeuvre,
    sink: &mut S,
) -> Result<MeetCounts, PrintFault>
    requires fits { AreBoxesOf model.now boxes.now }
    requires rates { (place : ℕ) → place < length boxes.now →
        RatesFit (may_of may.now) (box_at boxes.now place).states.intruder }
    ensures report { WroteReport (IsMeetingsReport model.now (may_of may.now) boxes.now)
        result (S.written sink.old) (S.written sink.new) }
    ensures part { IsErrOf result PrintFault.Sink →
        IsMeetingsBegun model.now (may_of may.now) boxes.now (S.written sink.old) (S.written sink.new) }
    ensures memory { IsErrOf result PrintFault.Memory → S.written sink.new ≡ S.written sink.old }
    ensures frame { Emits S.Sink sink.old sink.new (IsErrOf result PrintFault.Sink) }
{
    let counts = write_boxes_by(alloc, model, boxes, &BoxByBox { may }, sink)?;
    Ok(MeetCounts {
        certified: counts.certified,
        reported: counts.reported,
    })
}
