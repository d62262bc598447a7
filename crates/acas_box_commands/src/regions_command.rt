//! The command `regions`.
ghost use Rattle.std.specs.Prelude.{◌≤◌, ℕ, List, [], ◌∷◌, IsErrOf, IsTrue};
ghost use Rattle.acas_outside.specs.Files.{Given};
ghost use Rattle.acas_outside.specs.Frame.{ReadsAndWrites};
ghost use Rattle.acas_outside.specs.Outside.{outside};
ghost use Rattle.acas_command.specs.Answers.{Answers, report_ended};
ghost use Rattle.acas_command.specs.Called.{reading};
ghost use Rattle.acas_command.specs.ModelFile.{IsModelFile};
ghost use Rattle.acas_box_commands.specs.RegionsCalls.{CallsForRegions};

use acas_boxes::read_boxes;
use acas_command::{Cause, FileRole, ModelFile, read_model_file, read_text_file};
use acas_outside::{Folder, PrintFault, Sink};
use acas_report::write_regions;
use std::alloc::Global;

/// Rules on each box of a file, and prints the report. It answers how many are reported.
pub fn regions<F: Folder, O: Sink>(
    alloc: Global,
    model: &str,
    boxes: &str,
    folder: &mut F,
    out: &mut O,
) -> Result<u64, Cause>
    requires model { IsTrue (F.serves folder.old model.now) }
    requires boxes { IsTrue (F.serves folder.old boxes.now) }
    ensures answers { Answers (CallsForRegions model.now boxes.now) (report_ended result)
        (outside F.Folder O.Sink folder.old out.old) (outside F.Folder O.Sink folder.new out.new) }
    ensures folder { ReadsAndWrites F.Folder folder.old folder.new (IsErrOf result Cause.Folder) }
    ensures output { O.faults out.old ≤ O.faults out.new }
{
    let found = read_model_file(alloc, model, folder)?;
    rule_on_boxes(&found, boxes, alloc, folder, out)
}

// Rules on each box of a file, where the model is read, and prints the report.
fn rule_on_boxes<F: Folder, O: Sink>(
    found: &ModelFile,
    boxes: &str,
    alloc: Global,
    folder: &mut F,
    out: &mut O,
) -> Result<u64, Cause>
    requires boxes { IsTrue (F.serves folder.old boxes.now) }
    ensures answers { (model : List ℕ) → Given (F.holds folder.old) model (λ file. IsModelFile file found.now.digest found.now.model)
        → Answers (reading (boxes.now ∷ []) (CallsForRegions model boxes.now)) (report_ended result)
        (outside F.Folder O.Sink folder.old out.old) (outside F.Folder O.Sink folder.new out.new) }
    ensures folder { ReadsAndWrites F.Folder folder.old folder.new (IsErrOf result Cause.Folder) }
    ensures output { O.faults out.old ≤ O.faults out.new }
{
    let text = read_text_file(alloc, FileRole::Boxes, boxes, folder)?;
    let said = read_boxes(alloc, &found.model, &text)?;
    match write_regions(alloc, &found.model, &said, out) {
        Ok(counts) => Ok(counts.reported),
        Err(PrintFault::Sink) => Err(Cause::Output),
        Err(PrintFault::Memory) => Err(Cause::Memory),
    }
}
