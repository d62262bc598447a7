//! The lines of a report.
ghost use Rattle.std.specs.Prelude.{◌≡◌, ◌+◌, ◌<◌, ◌≤◌, ◌++◌, length};
ghost use Rattle.acas_safeable.specs.SafeableText.{cell_line, counts_text, number_field, outlook_text};
ghost use Rattle.acas_safeable.specs.View.{cell_of};
ghost use Rattle.acas_safeable.specs.Walk.{IsNamed, head_text};

use crate::counts::SafeCounts;
use crate::outlook::{ClearCell, Outlook};
use acas_base::Model;
use acas_outside::{LINE_BYTES, Line};
use acas_units::GREATEST_NAME_BYTES;

/// Room for a space and a whole number: a sign and 39 digits.
const NUMBER_BYTES: usize = 41;

/// Room for the front of a line: a word, four numbers and a name with a space before it.
const HEAD_BYTES: usize = 5 + 4 * NUMBER_BYTES + GREATEST_NAME_BYTES;

/// Room for what is found: a word and a name, each with a space before it.
const OUTLOOK_BYTES: usize = 10 + GREATEST_NAME_BYTES;

/// Makes the line of a cell, of which this is found.
#[tactic(auto, unfolding(crate::specs::SafeableText::cell_line))]
pub(crate) fn write_cell_line(line: &mut Line, model: &Model, cell: &ClearCell, outlook: &Outlook)
    requires present { cell.now.present < model.now.grid.advisories }
    requires outlook { IsNamed model.now outlook.now }
    ensures value { line.new ≡ cell_line model.now (cell_of cell.now) outlook.now }
    ensures short { length line.new ≤ LINE_BYTES }
{
    begin_line(line, model, cell);
    line_outlook(line, model, outlook);
    line.push(b"\n");
}

/// Makes the last line.
#[tactic(auto, unfolding(crate::specs::SafeableText::counts_text))]
pub(crate) fn write_counts(line: &mut Line, counts: &SafeCounts)
    ensures value { line.new ≡ counts_text counts.now }
    ensures short { length line.new ≤ LINE_BYTES }
{
    line.clear();
    line.push(b"safeable");
    line_number(line, counts.safeable);
    line.push(b" open");
    line_number(line, counts.unshown);
    line.push(b" near");
    line_number(line, counts.near);
    line.push(b"\n");
}

// Makes the front of the line of a cell: its seconds, its present advisory by its name, and its places.
fn begin_line(line: &mut Line, model: &Model, cell: &ClearCell)
    requires { cell.now.present < model.now.grid.advisories }
    ensures value { line.new ≡ head_text model.now (cell_of cell.now) }
    ensures short { length line.new ≤ HEAD_BYTES }
{
    line.clear();
    line.push(b"cell");
    line_number(line, u64::from(cell.n));
    line.push(b" ");
    line.push(model.name(cell.present));
    line_number(line, u64::from(cell.i));
    line_number(line, u64::from(cell.j));
    line_number(line, u64::from(cell.k));
}

// Appends what is found.
fn line_outlook(line: &mut Line, model: &Model, outlook: &Outlook)
    requires outlook { IsNamed model.now outlook.now }
    requires room { length line.old + OUTLOOK_BYTES ≤ LINE_BYTES }
    ensures value { line.new ≡ line.old ++ outlook_text model.now outlook.now }
    ensures room { length line.new ≤ length line.old + OUTLOOK_BYTES }
{
    match outlook {
        Outlook::Safeable(advisory) => {
            line.push(b" safeable ");
            line.push(model.name(*advisory));
        }
        Outlook::Unshown => line.push(b" open"),
    }
}

// Appends a space and a number.
fn line_number(line: &mut Line, value: u64)
    requires { length line.old + NUMBER_BYTES ≤ LINE_BYTES }
    ensures value { line.new ≡ line.old ++ number_field value }
    ensures room { length line.new ≤ length line.old + NUMBER_BYTES }
{
    line.push(b" ");
    line.number(i128::from(value));
}
