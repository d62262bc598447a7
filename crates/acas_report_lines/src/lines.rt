//! The lines of a report.
ghost use Rattle.std.specs.Prelude.{◌≡◌, ◌+◌, ◌<◌, ◌≤◌, ◌++◌, length};
ghost use Rattle.acas_report_lines.specs.Text.{box_counts_text, cell_line, cell_text, counts_text, line_of_box, totals_text};

use crate::counts::Counts;
use crate::fields::{line_count, line_name};
use crate::said::Said;
use acas_base::Model;
use acas_cells::CellName;
use acas_outside::{LINE_BYTES, Line};
use acas_rulings::Ruling;
use acas_units::GREATEST_NAME_BYTES;

/// The greatest number of bytes with which a line begins: a word, four numbers and two names.
const HEAD_BYTES: usize = 88 + 2 * (GREATEST_NAME_BYTES + 1);

/// The greatest number of bytes of the counts of an audit: three words, three numbers and the end of the line.
pub const COUNTS_BYTES: usize = 88;

/// The greatest number of bytes with which the counts begin: two words and two numbers.
const TOTALS_BYTES: usize = 60;

/// Makes the line of a cell under an advice.
pub fn write_cell_line(line: &mut Line, model: &Model, name: &CellName, ruling: &Ruling)
    requires present { name.now.present < model.now.grid.advisories }
    requires advice { name.now.advice < model.now.grid.advisories }
    ensures value { line.new ≡ cell_line model.now name.now ruling.now }
    ensures short { length line.new ≤ LINE_BYTES }
{
    begin_cell_line(line, model, name);
    ruling.write(line);
}

/// Makes the line of a box.
#[tactic(auto, unfolding(crate::specs::Text::box_text))]
pub(crate) fn write_box_line<V: Said>(line: &mut Line, number: u32, said: &V)
    ensures value { line.new ≡ line_of_box V.text number said.now }
    ensures short { length line.new ≤ LINE_BYTES }
{
    line.clear();
    line.push(b"box");
    line_count(line, u64::from(number));
    said.write(line);
}

/// Makes the last line of an audit.
pub fn write_counts(line: &mut Line, counts: &Counts)
    ensures value { line.new ≡ counts_text counts.now }
    ensures short { length line.new ≤ LINE_BYTES }
{
    line.clear();
    line_counts(line, counts);
}

/// Appends the last line of an audit: the counts.
#[tactic(auto, unfolding(crate::specs::Text::counts_text))]
pub fn line_counts(line: &mut Line, counts: &Counts)
    requires { length line.old + COUNTS_BYTES ≤ LINE_BYTES }
    ensures value { line.new ≡ line.old ++ counts_text counts.now }
    ensures room { length line.new ≤ length line.old + COUNTS_BYTES }
{
    line_totals(line, counts);
    line.push(b" clear");
    line_count(line, counts.clear);
    line.push(b"\n");
}

/// Makes the last line of a box file's report.
#[tactic(auto, unfolding(crate::specs::Text::box_counts_text))]
pub(crate) fn write_box_counts(line: &mut Line, counts: &Counts)
    ensures value { line.new ≡ box_counts_text counts.now }
    ensures short { length line.new ≤ LINE_BYTES }
{
    line.clear();
    line_totals(line, counts);
    line.push(b"\n");
}

// Appends how many are certified and how many reported.
fn line_totals(line: &mut Line, counts: &Counts)
    requires { length line.old + TOTALS_BYTES ≤ LINE_BYTES }
    ensures value { line.new ≡ line.old ++ totals_text counts.now }
    ensures room { length line.new ≤ length line.old + TOTALS_BYTES }
{
    line.push(b"certified");
    line_count(line, counts.certified);
    line.push(b" reported");
    line_count(line, counts.reported);
}

// Begins the line of a cell under an advice.
#[tactic(auto, unfolding(crate::specs::Text::cell_text))]
fn begin_cell_line(line: &mut Line, model: &Model, name: &CellName)
    requires present { name.now.present < model.now.grid.advisories }
    requires advice { name.now.advice < model.now.grid.advisories }
    ensures value { line.new ≡ cell_text model.now name.now }
    ensures short { length line.new ≤ HEAD_BYTES }
{
    line.clear();
    line.push(b"cell");
    line_count(line, u64::from(name.n));
    line_name(line, model.name(name.present));
    line_count(line, u64::from(name.i));
    line_count(line, u64::from(name.j));
    line_count(line, u64::from(name.k));
    line_name(line, model.name(name.advice));
}
