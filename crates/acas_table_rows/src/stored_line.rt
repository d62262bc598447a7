//! The line of a command that stores a table.
ghost use Rattle.std.specs.Prelude.{◌≡◌, ◌≤◌, IsErr, OnOk, OnErr, length};
ghost use Rattle.acas_outside.specs.Bytes.{Appends, AppendsPart};
ghost use Rattle.acas_outside.specs.Frame.{Emits};
ghost use Rattle.acas_table_text.specs.Shape.{shape_of};
ghost use Rattle.acas_table_text.specs.Format.{length_of};
ghost use Rattle.acas_table_text.specs.declared.format.Format.TheVariants.{Layered};
ghost use Rattle.acas_table_rows.specs.StoredLine.{stored_line};

use acas_command::{put_count, put_text};
use acas_grid::Grid;
use acas_outside::{Failed, Line, Sink, emit};

/// Prints the line that says, behind what was done, how large the stored table over a grid is, which has so many bytes. It takes
/// no memory.
#[tactic(auto, unfolding(crate::specs::StoredLine::stored_line))]
pub fn print_stored_line<O: Sink>(
    out: &mut O,
    done: &str,
    grid: &Grid,
    bytes: u64,
) -> Result<(), Failed>
    requires word { length done.now ≤ 8 }
    requires bytes { bytes ≡ length_of Layered (shape_of grid.now) }
    ensures ok { OnOk result (Appends (O.written out.old) (O.written out.new) (stored_line done.now grid.now)) }
    ensures err { OnErr result
        (AppendsPart (O.written out.old) (O.written out.new) (stored_line done.now grid.now)) }
    ensures frame { Emits O.Sink out.old out.new (IsErr result) }
{
    let mut line = Line::new();
    put_text(&mut line, done);
    put_text(&mut line, " layers ");
    put_count(&mut line, u64::from(grid.horizon) + 1);
    put_text(&mut line, " states ");
    put_count(&mut line, u64::from(grid.states()));
    put_text(&mut line, " bytes ");
    put_count(&mut line, bytes);
    put_text(&mut line, "\n");
    emit(out, line.bytes())
}
