//! The lines of a replay.
ghost use Rattle.std.specs.Prelude.{◌≡◌, ◌+◌, ◌<◌, ◌≤◌, ◌++◌, codes, if◌then◌else◌, length};
ghost use Rattle.std.specs.Fmt.{decimal, signed_decimal};
ghost use Rattle.acas_spec.specs.Model.{advisory_at};
ghost use Rattle.acas_replay.specs.Replay.{counts_line, line_of};

use crate::progress::Found;
use crate::state::EncounterState;
use acas_base::Model;
use acas_outside::{LINE_BYTES, Line};
use acas_units::GREATEST_NAME_BYTES;

/// Room for a whole number: a sign and 39 digits.
const NUMBER_BYTES: usize = 40;

/// Room for the front of a line: the number of the second, a space and a name.
const FRONT_BYTES: usize = NUMBER_BYTES + 1 + GREATEST_NAME_BYTES;

/// Makes the line of a second.
#[tactic(auto, unfolding(crate::specs::Replay::line_of))]
pub(crate) fn write_line(
    line: &mut Line,
    model: &Model,
    second: u32,
    state: &EncounterState,
    found: &Found,
)
    requires { found.now.advice < model.now.grid.advisories }
    ensures value { line.new ≡ line_of model.now second state.now found.now.advice found.now.contact }
    ensures short { length line.new ≤ LINE_BYTES }
{
    begin_line(line, model, second, found.advice);
    line.push(b" range ");
    line_number(line, state.range);
    line.push(b" ticks ");
    line_number(line, state.point.h);
    line.push(b" own ");
    line_number(line, state.point.v0);
    line.push(b" intruder ");
    line_number(line, state.point.v1);
    line_contact(line, found.contact);
}

/// Makes the last line.
#[tactic(auto, unfolding(crate::specs::Replay::counts_line))]
pub(crate) fn write_counts(line: &mut Line, seconds: u32, contacts: u32)
    ensures value { line.new ≡ counts_line seconds contacts }
    ensures short { length line.new ≤ LINE_BYTES }
{
    line.clear();
    line.push(b"seconds ");
    line_number(line, i64::from(seconds));
    line.push(b" contact ");
    line_number(line, i64::from(contacts));
    line.push(b"\n");
}

// Makes the front of a line: the number of the second, and the advice by its name.
fn begin_line(line: &mut Line, model: &Model, second: u32, advice: u8)
    requires { advice < model.now.grid.advisories }
    ensures value { line.new ≡ decimal second ++ codes " " ++ (advisory_at model.now advice).name }
    ensures short { length line.new ≤ FRONT_BYTES }
{
    line.clear();
    line_number(line, i64::from(second));
    line.push(b" ");
    line.push(model.name(advice));
}

// Appends a number.
fn line_number(line: &mut Line, value: i64)
    requires { length line.old + NUMBER_BYTES ≤ LINE_BYTES }
    ensures value { line.new ≡ line.old ++ signed_decimal value }
    ensures room { length line.new ≤ length line.old + NUMBER_BYTES }
{
    line.number(i128::from(value));
}

// Appends whether a second is in contact, and ends the line.
fn line_contact(line: &mut Line, contact: bool)
    requires { length line.old + 9 ≤ LINE_BYTES }
    ensures value { line.new ≡ line.old ++ (if contact then codes " contact\n" else codes " apart\n") }
    ensures room { length line.new ≤ length line.old + 9 }
{
    if contact {
        line.push(b" contact\n");
    } else {
        line.push(b" apart\n");
    }
}
