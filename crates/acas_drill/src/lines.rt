//! The lines of a drill.
ghost use Rattle.std.specs.Prelude.{◌≡◌, ◌+◌, ◌≤◌, ◌++◌, [], length};
ghost use Rattle.acas_table_text.specs.Shape.{shape_of};
ghost use Rattle.acas_table_text.specs.Format.{length_of};
ghost use Rattle.acas_table_text.specs.declared.format.Format.TheVariants.{Layered};
ghost use Rattle.acas_drill.specs.Text.{drill_line, drill_lines};

use acas_command::{put_count, put_text};
use acas_grid::Grid;
use acas_outside::{LINE_BYTES, Line};
use acas_report_lines::{Counts, line_counts};

/// The greatest number of bytes of the line that says how large the table is.
const SIZE_BYTES: usize = 120;

/// Makes the lines of the drill of a number, over a grid whose table has this length, with the counts of its audit.
pub(crate) fn write_lines(line: &mut Line, number: u32, grid: &Grid, bytes: u64, counts: &Counts)
    requires empty { line.old ≡ [] }
    requires bytes { bytes ≡ length_of Layered (shape_of grid.now) }
    ensures { line.new ≡ drill_lines number grid.now counts.now }
{
    put_size(line, number, grid, bytes);
    put_text(line, "accepted\n");
    line_counts(line, counts);
}

// Appends how large the table is.
#[tactic(auto, unfolding(crate::specs::Text::drill_line))]
fn put_size(line: &mut Line, number: u32, grid: &Grid, bytes: u64)
    requires room { length line.old + SIZE_BYTES ≤ LINE_BYTES }
    requires bytes { bytes ≡ length_of Layered (shape_of grid.now) }
    ensures value { line.new ≡ line.old ++ drill_line number grid.now }
    ensures room { length line.new ≤ length line.old + SIZE_BYTES }
{
    put_text(line, "drill ");
    put_count(line, u64::from(number));
    put_text(line, " states ");
    put_count(line, u64::from(grid.states()));
    put_text(line, " entries ");
    put_count(line, grid.entries());
    put_text(line, " bytes ");
    put_count(line, bytes);
    put_text(line, "\n");
}
