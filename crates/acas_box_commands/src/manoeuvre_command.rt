//! The command `manoeuvre`.
ghost use Rattle.std.specs.Prelude.{◌≤◌, ℕ, List, [], ◌∷◌, IsErrOf, IsTrue};
ghost use Rattle.acas_outside.specs.Files.{Given};
ghost use Rattle.acas_outside.specs.Frame.{ReadsAndWrites};
ghost use Rattle.acas_outside.specs.Outside.{outside};
ghost use Rattle.acas_rulings.specs.MeetingView.{may_of};
ghost use Rattle.acas_command.specs.Answers.{Answers, report_ended};
ghost use Rattle.acas_command.specs.Called.{reading};
ghost use Rattle.acas_command.specs.ModelFile.{IsModelFile};
ghost use Rattle.acas_box_commands.specs.ManoeuvreCalls.{CallsForManoeuvre};

use acas_boxes::read_fitting_boxes;
use acas_command::{Cause, FileRole, ModelFile, read_model_file, read_text_file};
use acas_intruder::write_meetings;
use acas_outside::{Folder, PrintFault, Sink};
use acas_rulings::Manoeuvre;
use std::alloc::Global;

/// Rules on each box of a file, against an intruder that may change its rate, and prints the report. It answers how many are reported.
pub fn manoeuvre<F: Folder, O: Sink>(
    alloc: Global,
    model: &str,
    boxes: &str,
    may: &Manoeuvre,
    folder: &mut F,
    out: &mut O,
) -> Result<u64, Cause>
    requires model { IsTrue (F.serves folder.old model.now) }
    requires boxes { IsTrue (F.serves folder.old boxes.now) }
    ensures answers { Answers (CallsForManoeuvre model.now boxes.now (may_of may.now)) (report_ended result)
        (outside F.Folder O.Sink folder.old out.old) (outside F.Folder O.Sink folder.new out.new) }
    ensures folder { ReadsAndWrites F.Folder folder.old folder.new (IsErrOf result Cause.Folder) }
    ensures output { O.faults out.old ≤ O.faults out.new }
{
    let found = read_model_file(alloc, model, folder)?;
    rule_on_boxes(&found, boxes, may, alloc, folder, out)
}

// Rules on each box of a file against such an intruder, where the model is read, and prints the report.
fn rule_on_boxes<F: Folder, O: Sink>(
    found: &ModelFile,
    boxes: &str,
    may: &Manoeuvre,
    alloc: Global,
    folder: &mut F,
    out: &mut O,
) -> Result<u64, Cause>
    requires boxes { IsTrue (F.serves folder.old boxes.now) }
    ensures answers { (model : List ℕ) → Given (F.holds folder.old) model (λ file. IsModelFile file found.now.digest found.now.model)
        → Answers (reading (boxes.now ∷ []) (CallsForManoeuvre model boxes.now (may_of may.now))) (report_ended result)
        (outside F.Folder O.Sink folder.old out.old) (outside F.Folder O.Sink folder.new out.new) }
    ensures folder { ReadsAndWrites F.Folder folder.old folder.new (IsErrOf result Cause.Folder) }
    ensures output { O.faults out.old ≤ O.faults out.new }
{
    let text = read_text_file(alloc, FileRole::Boxes, boxes, folder)?;
    let said = read_fitting_boxes(alloc, &found.model, may, &text)?;
    match write_meetings(alloc, &found.model, &said, may, out) {
        Ok(counts) => Ok(counts.reported),
        Err(PrintFault::Sink) => Err(Cause::Output),
        Err(PrintFault::Memory) => Err(Cause::Memory),
    }
}
