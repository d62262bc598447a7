//! The command `drill`.
ghost use Rattle.std.specs.Prelude.{◌≡◌, ◌≤◌, [], IfOk};
ghost use Rattle.std.specs.Fmt.{decimal};
ghost use Rattle.sha2.specs.Sha256.{sha256};
ghost use Rattle.acas_outside.specs.Outside.{Outside};
ghost use Rattle.acas_command.specs.Answers.{Answers, report_ended};
ghost use Rattle.acas_drill.specs.Calls.{CallsForDrill, EndsDrill, IsDrillText, output_beside};
ghost use Rattle.acas_drill_model.specs.DrilledModel.{drilled_model};

use crate::counts::audit_counts;
use crate::lines::write_lines;
use crate::table::drill_table;
use acas_command::{Cause, ModelFile};
use acas_drill_model::drill_model;
use acas_means::LayerMeans;
use acas_outside::{Line, Sink, emit};
use acas_units::GREATEST_DRILL_NUMBER;
use itoa::Buffer;
use sha2::{Digest, Sha256};
use std::alloc::{AllocError, Global};

/// Compiles the model of a drill into a folder of its own, accepts the table from there, rules on each advisory cell of
/// it, and prints three lines: how large the table is, that it is accepted, and the counts. It answers how many cells
/// are reported. It takes all its memory before the first byte goes out, and fails only for want of it or where the
/// output fails.
pub fn drill<M: LayerMeans, O: Sink>(alloc: Global, number: u32, out: &mut O) -> Result<u64, Cause>
    requires { number ≤ GREATEST_DRILL_NUMBER }
    // Whatever is told of a folder beside the output, it stays so.
    ensures answers { (folder : Outside) → Answers (CallsForDrill number) (report_ended result)
        (output_beside O.Sink folder out.old) (output_beside O.Sink folder out.new) }
    ensures ends { EndsDrill (report_ended result) }
    ensures output { O.faults out.old ≤ O.faults out.new }
{
    let mut line = Line::new();
    let reported = make_lines::<M>(alloc, number, &mut line)?;
    match emit(out, line.bytes()) {
        Ok(()) => Ok(reported),
        Err(_) => Err(Cause::Output),
    }
}

// Makes the lines of a drill, and answers how many cells are reported.
fn make_lines<M: LayerMeans>(alloc: Global, number: u32, line: &mut Line) -> Result<u64, AllocError>
    requires empty { line.old ≡ [] }
    requires number { number ≤ GREATEST_DRILL_NUMBER }
    ensures { IfOk result (λ reported. IsDrillText number reported line.new) }
{
    let found = drilled(alloc, number)?;
    line_up::<M>(alloc, number, &found, line)
}

// Makes them of the drill's model.
fn line_up<M: LayerMeans>(
    alloc: Global,
    number: u32,
    found: &ModelFile,
    line: &mut Line,
) -> Result<u64, AllocError>
    requires empty { line.old ≡ [] }
    requires number { number ≤ GREATEST_DRILL_NUMBER }
    requires model { found.now.model ≡ drilled_model number }
    requires digest { found.now.digest ≡ sha256 (decimal number) }
    ensures { IfOk result (λ reported. IsDrillText number reported line.new) }
{
    let table = drill_table::<M>(alloc, found)?;
    let counts = audit_counts(alloc, &found.model, &table.advices)?;
    write_lines(line, number, found.model.grid(), table.bytes, &counts);
    Ok(counts.reported)
}

// The model of a drill, with the digest of the number's digits in the place of that of a text.
fn drilled(alloc: Global, number: u32) -> Result<ModelFile, AllocError>
    requires { number ≤ GREATEST_DRILL_NUMBER }
    ensures model { IfOk result (λ found. found.model ≡ drilled_model number) }
    ensures digest { IfOk result (λ found. found.digest ≡ sha256 (decimal number)) }
{
    let mut buffer = Buffer::new();
    Ok(ModelFile {
        model: drill_model(alloc, number)?,
        digest: Sha256::digest(buffer.format(number).as_bytes()),
    })
}
