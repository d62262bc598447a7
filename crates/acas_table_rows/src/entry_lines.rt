//! The lines of a table's entries.
ghost use Rattle.std.specs.Prelude.{◌≡◌, ◌≤◌, ◌<◌, length};
ghost use Rattle.acas_grid.specs.Grid.{IsVertex};
ghost use Rattle.acas_table_rows.specs.Heads.{line_behind, line_head};
ghost use Rattle.acas_table_rows.specs.ValuesText.{advice_text};

use acas_base::Model;
use acas_command::{put_count_field, put_millionths_field, put_name_field, put_number_field};
use acas_grid::Vertex;
use acas_outside::{LINE_BYTES, Line};
use acas_units::{GREATEST_NAME_BYTES, Pair, TICKS_PER_FOOT};

/// Makes what the lines of a vertex, and of those beside it on the axis of intruder rate, begin with.
#[tactic(auto, unfolding(crate::specs::Heads::line_head))]
pub(crate) fn write_head(head: &mut Line, model: &Model, n: u32, present: u8, vertex: Vertex)
    requires present { present < model.now.grid.advisories }
    requires vertex { IsVertex model.now.grid vertex }
    ensures value { head.new ≡ line_head model.now n present vertex.i vertex.j }
    ensures short { length head.new ≤ 128 }
{
    let grid = model.grid();
    head.clear();
    put_count_field(head, u64::from(n));
    put_name_field(head, model.name(present));
    put_number_field(head, grid.h.value(vertex.i) / i64::from(TICKS_PER_FOOT));
    put_number_field(head, grid.v0.value(vertex.j));
}

/// Makes the line of an entry behind what it begins with: the intruder's rate by its place, the two values and the advice.
pub(crate) fn write_entry(
    line: &mut Line,
    head: &Line,
    model: &Model,
    n: u32,
    k: u32,
    pair: Pair,
    advice: u8,
)
    requires place { k < length model.now.grid.v1 }
    requires head { length head.now ≤ 128 }
    ensures value { line.new ≡ line_behind model.now n k pair.lower pair.upper advice head.now }
    ensures short { length line.new ≤ LINE_BYTES }
{
    line.clear();
    line.push(head.bytes());
    put_number_field(line, model.grid().v1.value(k));
    put_millionths_field(line, pair.lower);
    put_millionths_field(line, pair.upper);
    line.push(advice_name(model, n, advice));
    line.push(b"\n");
}

// The advice by name, and `-` with no second to go and where its number is no advisory's.
#[tactic(auto, unfolding(crate::specs::ValuesText::advice_text))]
fn advice_name(model: &Model, n: u32, advice: u8) -> &[u8]
    ensures value { result.now ≡ advice_text model.now n advice }
    ensures short { length result.now ≤ GREATEST_NAME_BYTES }
{
    if 0 < n && u32::from(advice) < model.grid().advisories {
        model.name(advice)
    } else {
        b"-"
    }
}
