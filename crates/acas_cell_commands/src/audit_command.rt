//! The command `audit`.
ghost use Rattle.std.specs.Prelude.{◌≤◌, ◌^◌, ℕ, List, [], ◌∷◌, IsErrOf, IsTrue};
ghost use Rattle.acas_spec.specs.Limits.{IsModel};
ghost use Rattle.acas_outside.specs.Files.{Given};
ghost use Rattle.acas_outside.specs.Frame.{ReadsAndWrites};
ghost use Rattle.acas_outside.specs.Outside.{outside};
ghost use Rattle.acas_command.specs.Answers.{Answers, report_ended};
ghost use Rattle.acas_command.specs.Called.{reading};
ghost use Rattle.acas_command.specs.ModelFile.{IsModelFile};
ghost use Rattle.acas_cell_commands.specs.AuditCalls.{CallsForAudit};
ghost use Rattle.acas_cell_commands.specs.Decisions.{CountsAudit};

use acas_audit_blocks::Decisions;
use acas_command::{Cause, ModelFile, read_model_file};
use acas_means::LayerMeans;
use acas_outside::{Folder, PrintFault, Sink};
use acas_report::write_blocks;
use acas_report_lines::Which;
use acas_table_file::read_table_file;
use std::alloc::Global;

/// Rules on each advisory cell of a table, once the whole table is accepted, and prints the report. It answers how many are reported.
/// It keeps the table's advices, one byte each, and reads the table once. Whole blocks of cells are decided first, and it counts these
/// decisions: where the whole report is out, the count rose by their whole number, and where it ended as it looked at its files, or for
/// want of memory, not at all. A count of at most 2^63 leaves room for them.
pub fn audit<M: LayerMeans, F: Folder, O: Sink>(
    alloc: Global,
    model: &str,
    table: &str,
    which: Which,
    folder: &mut F,
    out: &mut O,
    count: &mut Decisions,
) -> Result<u64, Cause>
    requires model { IsTrue (F.serves folder.old model.now) }
    requires table { IsTrue (F.serves folder.old table.now) }
    requires count { count.old ≤ 2 ^ 63 }
    ensures answers { Answers (CallsForAudit model.now table.now which) (report_ended result)
        (outside F.Folder O.Sink folder.old out.old) (outside F.Folder O.Sink folder.new out.new) }
    ensures folder { ReadsAndWrites F.Folder folder.old folder.new (IsErrOf result Cause.Folder) }
    ensures output { O.faults out.old ≤ O.faults out.new }
    ensures work { CountsAudit model.now table.now (F.holds folder.old) (report_ended result) count.old
        count.new }
    ensures rising { count.old ≤ count.new }
{
    let found = read_model_file(alloc, model, folder)?;
    rule_on_cells::<M, F, O>(alloc, &found, table, folder, out, which, count)
}

// Rules on each advisory cell of a table, where the model is read, and prints the report.
fn rule_on_cells<M: LayerMeans, F: Folder, O: Sink>(
    alloc: Global,
    found: &ModelFile,
    table: &str,
    folder: &mut F,
    out: &mut O,
    which: Which,
    count: &mut Decisions,
) -> Result<u64, Cause>
    requires table { IsTrue (F.serves folder.old table.now) }
    requires count { count.old ≤ 2 ^ 63 }
    ensures answers { (model : List ℕ) → Given (F.holds folder.old) model (λ file. IsModelFile file found.now.digest found.now.model)
        → Answers (reading (table.now ∷ []) (CallsForAudit model table.now which)) (report_ended result)
        (outside F.Folder O.Sink folder.old out.old) (outside F.Folder O.Sink folder.new out.new) }
    ensures folder { ReadsAndWrites F.Folder folder.old folder.new (IsErrOf result Cause.Folder) }
    ensures output { O.faults out.old ≤ O.faults out.new }
    ensures work { (model : List ℕ) → IsModel found.now.model
        → Given (F.holds folder.old) model (λ file. IsModelFile file found.now.digest found.now.model)
        → CountsAudit model table.now (F.holds folder.old) (report_ended result) count.old count.new }
    ensures rising { count.old ≤ count.new }
{
    let advices = read_table_file::<M, F>(alloc, found, table, folder)?;
    match write_blocks(alloc, &found.model, &advices, out, which, count) {
        Ok(counts) => Ok(counts.reported),
        Err(PrintFault::Sink) => Err(Cause::Output),
        Err(PrintFault::Memory) => Err(Cause::Memory),
    }
}
