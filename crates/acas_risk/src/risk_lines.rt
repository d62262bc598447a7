//! The lines of a report of risks.
ghost use Rattle.std.specs.Prelude.{◌≡◌, ◌+◌, ◌<◌, ◌≤◌, ◌++◌, ◌∷◌, [], codes, length};
ghost use Rattle.std.specs.Fmt.{decimal};
ghost use Rattle.acas_spec.specs.Model.{states};
ghost use Rattle.acas_command.specs.Fields.{field};
ghost use Rattle.acas_risk.specs.RiskText.{bounds_text, risk_line};
ghost use Rattle.acas_risk.specs.Rows.{AreOfStates, row_at};

use crate::risk_values::RiskValues;
use acas_base::Model;
use acas_command::{
    put_count, put_millionths, put_millionths_field, put_state_fields, put_text, put_text_field,
};
use acas_grid::{state_present, state_vertex};
use acas_outside::{LINE_BYTES, Line};
use acas_units::Pair;

/// The greatest number of bytes of two bounds behind a word: two spaces and two numbers.
const BOUNDS_BYTES: usize = 48;

/// Makes the line of the state of a number.
#[tactic(auto, unfolding(crate::specs::RiskText::risk_line))]
pub(crate) fn write_risk_line(line: &mut Line, model: &Model, values: &RiskValues, state: u32)
    requires values { AreOfStates model.now.grid values.now }
    requires state { state < states model.now.grid }
    ensures value { line.new ≡ risk_line model.now state (row_at values.now state) }
    ensures short { length line.new ≤ LINE_BYTES }
{
    let grid = model.grid();
    line.clear();
    put_state_fields(
        line,
        model,
        state_present(grid, state),
        state_vertex(grid, state),
    );
    put_bounds_field(line, "risk", values.risk[state as usize]);
    put_bounds_field(line, "clear", values.clear[state as usize]);
    put_bounds(line, "cost", values.cost[state as usize]);
    line.push(b"\n");
}

// Appends a word, a lower and an upper value, and a space.
#[tactic(auto, unfolding(acas_command::specs::Fields::field))]
fn put_bounds_field(line: &mut Line, word: &str, bounds: Pair)
    requires { length line.old + length word.now + BOUNDS_BYTES + 1 ≤ LINE_BYTES }
    ensures value { line.new ≡ line.old ++ field (bounds_text word.now bounds) }
    ensures room { length line.new ≤ length line.old + length word.now + BOUNDS_BYTES + 1 }
{
    put_bounds(line, word, bounds);
    line.push(b" ");
}

// Appends a word, and a lower and an upper value.
#[tactic(auto, unfolding(crate::specs::RiskText::bounds_text))]
fn put_bounds(line: &mut Line, word: &str, bounds: Pair)
    requires { length line.old + length word.now + BOUNDS_BYTES ≤ LINE_BYTES }
    ensures value { line.new ≡ line.old ++ bounds_text word.now bounds }
    ensures room { length line.new ≤ length line.old + length word.now + BOUNDS_BYTES }
{
    put_text_field(line, word);
    put_millionths_field(line, bounds.lower);
    put_millionths(line, bounds.upper);
}

/// Makes the last line: how many states there are.
pub(crate) fn write_states_line(line: &mut Line, count: u32)
    ensures value { line.new ≡ codes "states " ++ decimal count ++ 10 ∷ [] }
    ensures short { length line.new ≤ LINE_BYTES }
{
    line.clear();
    put_text(line, "states ");
    put_count(line, u64::from(count));
    line.push(b"\n");
}
