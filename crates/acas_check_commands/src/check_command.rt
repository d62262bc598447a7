//! The command `check`.
ghost use Rattle.std.specs.Prelude.{◌≤◌, [], ◌∷◌, ◌≡◌, ℕ, List, IsErrOf, IsTrue, IsSomeAnd};
ghost use Rattle.acas_outside.specs.Bytes.{IsBytes};
ghost use Rattle.acas_outside.specs.Files.{Given};
ghost use Rattle.acas_outside.specs.Frame.{ReadsAndWrites};
ghost use Rattle.acas_outside.specs.Outside.{outside};
ghost use Rattle.acas_command.specs.Answers.{Answers, ended};
ghost use Rattle.acas_command.specs.Called.{reading};
ghost use Rattle.acas_command.specs.ModelFile.{IsModelFile};
ghost use Rattle.acas_check_commands.specs.AcceptedLine.{accepted_line};
ghost use Rattle.acas_check_commands.specs.Calls.{CallsForCheck};

use acas_command::{Cause, ModelFile, put_count, put_text, read_model_file};
use acas_grid::Grid;
use acas_means::LayerMeans;
use acas_outside::{Folder, Line, Sink, emit};
use acas_table_file::read_table_file;
use std::alloc::Global;

/// Checks a table of a model, and prints how large it is where it is accepted.
pub fn check<M: LayerMeans, F: Folder, O: Sink>(
    alloc: Global,
    model: &str,
    table: &str,
    folder: &mut F,
    out: &mut O,
) -> Result<(), Cause>
    requires model { IsTrue (F.serves folder.old model.now) }
    requires table { IsTrue (F.serves folder.old table.now) }
    ensures answers { Answers (CallsForCheck model.now table.now) (ended result)
        (outside F.Folder O.Sink folder.old out.old) (outside F.Folder O.Sink folder.new out.new) }
    // What was accepted are bytes.
    ensures bytes { ended result ≡ Cause.Done →
        Given (F.holds folder.old) table.now (λ file. IsSomeAnd file IsBytes) }
    ensures folder { ReadsAndWrites F.Folder folder.old folder.new (IsErrOf result Cause.Folder) }
    ensures output { O.faults out.old ≤ O.faults out.new }
{
    let found = read_model_file(alloc, model, folder)?;
    print_accepted::<M, F, O>(&found, table, alloc, folder, out)
}

// Checks a table, where the model is read, and prints how large it is where it is accepted.
fn print_accepted<M: LayerMeans, F: Folder, O: Sink>(
    found: &ModelFile,
    table: &str,
    alloc: Global,
    folder: &mut F,
    out: &mut O,
) -> Result<(), Cause>
    requires table { IsTrue (F.serves folder.old table.now) }
    ensures answers { (model : List ℕ) → Given (F.holds folder.old) model (λ file. IsModelFile file found.now.digest found.now.model)
        → Answers (reading (table.now ∷ []) (CallsForCheck model table.now)) (ended result)
        (outside F.Folder O.Sink folder.old out.old) (outside F.Folder O.Sink folder.new out.new) }
    ensures bytes { ended result ≡ Cause.Done →
        Given (F.holds folder.old) table.now (λ file. IsSomeAnd file IsBytes) }
    ensures folder { ReadsAndWrites F.Folder folder.old folder.new (IsErrOf result Cause.Folder) }
    ensures output { O.faults out.old ≤ O.faults out.new }
{
    read_table_file::<M, F>(alloc, found, table, folder)?;
    match emit(out, accepted_line(found.model.grid()).bytes()) {
        Ok(()) => Ok(()),
        Err(_) => Err(Cause::Output),
    }
}

// The line of an accepted table over a grid.
#[tactic(auto, unfolding(crate::specs::AcceptedLine::accepted_line))]
fn accepted_line(grid: &Grid) -> Line
    ensures { result ≡ accepted_line grid.now }
{
    let mut line = Line::new();
    put_text(&mut line, "accepted layers ");
    put_count(&mut line, u64::from(grid.horizon) + 1);
    put_text(&mut line, " states ");
    put_count(&mut line, u64::from(grid.states()));
    put_text(&mut line, "\n");
    line
}
