//! The fields of a line, each with a space behind it, and those of a state.
ghost use Rattle.std.specs.Prelude.{◌≡◌, ◌+◌, ◌≤◌, ◌<◌, ◌++◌, length};
ghost use Rattle.std.specs.Fmt.{decimal, signed_decimal};
ghost use Rattle.acas_grid.specs.Grid.{IsVertex};
ghost use Rattle.acas_outside.specs.Printed.{millionths_text};
ghost use Rattle.acas_command.specs.Fields.{field, state_fields};

use crate::line_fields::{put_count, put_millionths, put_number, put_text};
use acas_grid::Vertex;
use acas_model::Model;
use acas_outside::{LINE_BYTES, Line};
use acas_units::{GREATEST_NAME_BYTES, TICKS_PER_FOOT};

/// Appends the fields of a state: the name of the present advisory, the altitude in feet, the own rate and the intruder's rate.
#[tactic(auto, unfolding(crate::specs::Fields::state_fields))]
pub fn put_state_fields(line: &mut Line, model: &Model, present: u8, vertex: Vertex)
    requires present { present < model.now.grid.advisories }
    requires vertex { IsVertex model.now.grid vertex }
    requires room { length line.old + GREATEST_NAME_BYTES + 64 ≤ LINE_BYTES }
    ensures value { line.new ≡ line.old ++ state_fields model.now present vertex }
    ensures room { length line.new ≤ length line.old + GREATEST_NAME_BYTES + 64 }
{
    let grid = model.grid();
    put_name_field(line, model.name(present));
    put_number_field(line, grid.h.value(vertex.i) / i64::from(TICKS_PER_FOOT));
    put_number_field(line, grid.v0.value(vertex.j));
    put_number_field(line, grid.v1.value(vertex.k));
}

/// Appends a name and a space.
#[tactic(auto, unfolding(crate::specs::Fields::field))]
pub fn put_name_field(line: &mut Line, name: &[u8])
    requires short { length name.now ≤ GREATEST_NAME_BYTES }
    requires room { length line.old + GREATEST_NAME_BYTES + 1 ≤ LINE_BYTES }
    ensures value { line.new ≡ line.old ++ field name.now }
    ensures room { length line.new ≤ length line.old + GREATEST_NAME_BYTES + 1 }
{
    line.push(name);
    line.push(b" ");
}

/// Appends a text and a space.
#[tactic(auto, unfolding(crate::specs::Fields::field))]
pub fn put_text_field(line: &mut Line, text: &str)
    requires { length line.old + length text.now + 1 ≤ LINE_BYTES }
    ensures value { line.new ≡ line.old ++ field text.now }
    ensures room { length line.new ≡ length line.old + length text.now + 1 }
{
    put_text(line, text);
    line.push(b" ");
}

/// Appends a number that is not negative and a space.
#[tactic(auto, unfolding(crate::specs::Fields::field))]
pub fn put_count_field(line: &mut Line, value: u64)
    requires { length line.old + 21 ≤ LINE_BYTES }
    ensures value { line.new ≡ line.old ++ field (decimal value) }
    ensures room { length line.new ≤ length line.old + 21 }
{
    put_count(line, value);
    line.push(b" ");
}

/// Appends a number and a space.
#[tactic(auto, unfolding(crate::specs::Fields::field))]
pub fn put_number_field(line: &mut Line, value: i64)
    requires { length line.old + 21 ≤ LINE_BYTES }
    ensures value { line.new ≡ line.old ++ field (signed_decimal value) }
    ensures room { length line.new ≤ length line.old + 21 }
{
    put_number(line, value);
    line.push(b" ");
}

/// Appends a number of millionths and a space.
#[tactic(auto, unfolding(crate::specs::Fields::field))]
pub fn put_millionths_field(line: &mut Line, value: i64)
    requires { length line.old + 24 ≤ LINE_BYTES }
    ensures value { line.new ≡ line.old ++ field (millionths_text value) }
    ensures room { length line.new ≤ length line.old + 24 }
{
    put_millionths(line, value);
    line.push(b" ");
}
